ghost use Rattle.std.specs.Prelude.{◌≡◌, ◌≤◌, length};
ghost use Rattle.span_base.specs.Policy.{IsSoundPolicy};
ghost use Rattle.wire_msg.specs.Lawful.{IsLawful};
ghost use Rattle.wire_msg.specs.Sizes.{frame_size, policy_size};

use crate::message::Message;
use crate::sizes::{
    ASK_BYTES, CONFIRM_BYTES, FREEZE_BYTES, GONE_BYTES, HAVE_BYTES, HELD_BYTES, HERE_BYTES,
    LOOKUP_BYTES, PUSH_BYTES, READ_BYTES, REPAIR_BYTES, SEED_BYTES, STORE_BYTES, SWITCH_BYTES,
    SWITCHED_BYTES, YES_BYTES,
};
use span_base::{Policy, Value};

/// How many bytes the message's frame has. It takes no memory.
pub fn frame_len(message: &Message) -> u32
    requires { IsLawful message.now }
    ensures size { result ≡ frame_size message.now }
    ensures limit { result ≤ 8192 }
{
    match message {
        Message::Read { .. } => READ_BYTES,
        Message::Ask { .. } => ASK_BYTES,
        Message::Store { value, .. } => STORE_BYTES + value_len(value),
        Message::Repair { value, .. } => REPAIR_BYTES + value_len(value),
        Message::Confirm { .. } => CONFIRM_BYTES,
        Message::Freeze { .. } => FREEZE_BYTES,
        Message::Seed { value, .. } => SEED_BYTES + value_len(value),
        Message::Push { value, .. } => PUSH_BYTES + value_len(value),
        Message::Lookup { .. } => LOOKUP_BYTES,
        Message::Switch { .. } => SWITCH_BYTES,
        Message::Have { value, .. } => HAVE_BYTES + value_len(value),
        Message::Yes { .. } => YES_BYTES,
        Message::Held { .. } => HELD_BYTES,
        Message::Gone { .. } => GONE_BYTES,
        Message::Here {
            policy,
            latest_policy,
            ..
        } => HERE_BYTES + policy_len(policy) + policy_len(latest_policy),
        Message::Switched { .. } => SWITCHED_BYTES,
    }
}

/// How many bytes of its own a value has in a frame, beside the two of its length.
fn value_len(value: &Value) -> u32
    ensures size { result ≡ length value.now }
    ensures limit { result ≤ 4096 }
{
    value.len() as u32
}

/// How many bytes the policy has in a frame: at most those of 8 members and 16 replicas.
pub fn policy_len(policy: &Policy) -> u32
    requires { IsSoundPolicy policy.now }
    ensures size { result ≡ policy_size policy.now }
    ensures limit { result ≤ 149 }
{
    match policy {
        Policy::Direct { primary, .. } => 5 + primary.len() as u32 * 2,
        Policy::Relay {
            replicas,
            primary,
            ..
        } => 5 + primary.len() as u32 * (2 + replicas.count()),
        Policy::Strong { members, .. } => 5 + members.len() as u32 * 5,
    }
}
