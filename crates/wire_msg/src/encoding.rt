ghost use Rattle.std.specs.Prelude.{◌≡◌, IfOk, ◌+◌, ◌<◌, ◌^◌, ◌∷◌, ◌++◌};
ghost use Rattle.std.specs.Int.{w8, w16, w32};
ghost use Rattle.span_base.specs.Policy.{IsSoundPolicy};
ghost use Rattle.wire_msg.specs.Frames.{big, tag_bytes, policy_bytes, frame_of};
ghost use Rattle.wire_msg.specs.Laws.{FitsTag, FitsPolicy, FitsBytes};
ghost use Rattle.wire_msg.specs.Lawful.{IsLawful};
ghost use Rattle.wire_msg.specs.Sizes.{frame_size, policy_size};
ghost use Rattle.wire_msg.specs.Adds.{Adds, HasSpace};

use crate::lengths::frame_len;
use crate::message::Message;
use crate::policy_writer::write_policy;
use crate::tag::Tag;
use crate::writer::{
    write_byte, write_flag, write_kind, write_set, write_short, write_stamp, write_tag,
    write_value, write_word,
};
use span_base::{Bytes, DcId, KeyId, Policy};
use std::alloc::{AllocError, Global};

/// The message's frame.
pub fn encode(alloc: Global, message: &Message) -> Result<Bytes, AllocError>
    requires { IsLawful message.now }
    ensures { IfOk result (λ frame. frame ≡ frame_of message.now) }
{
    let mut frame = Vec::with_capacity(alloc, frame_len(message) as usize)?;
    write_frame(&mut frame, message);
    Ok(Bytes::from_vec(frame))
}

/// Puts the message's frame, the number of its kind and its fields, behind what is written. The
/// memory for it, `frame_len` bytes, has to be there: this asks for none.
pub fn write_frame(out: &mut Vec<u8>, message: &Message)
    requires lawful { IsLawful message.now }
    requires space { HasSpace out.old (frame_size message.now) }
    ensures adds { Adds out.old (frame_of message.now) (frame_size message.now) out.new }
    ensures fits { FitsBytes message.now }
{
    match message {
        Message::Read { tag, key, epoch } => {
            write_request(out, 1, tag, *key);
            write_word(out, *epoch);
        }
        Message::Ask { tag, key, stamp } => {
            write_request(out, 2, tag, *key);
            write_stamp(out, stamp);
        }
        Message::Store {
            tag,
            key,
            stamp,
            value,
        } => {
            write_request(out, 3, tag, *key);
            write_stamp(out, stamp);
            write_value(out, value);
        }
        Message::Repair {
            tag,
            key,
            epoch,
            stamp,
            value,
        } => {
            write_request(out, 4, tag, *key);
            write_word(out, *epoch);
            write_stamp(out, stamp);
            write_value(out, value);
        }
        Message::Confirm { tag, key, stamp } => {
            write_request(out, 5, tag, *key);
            write_stamp(out, stamp);
        }
        Message::Freeze { tag, key, epoch } => {
            write_request(out, 6, tag, *key);
            write_word(out, *epoch);
        }
        Message::Seed {
            tag,
            key,
            epoch,
            stamp,
            value,
        } => {
            write_request(out, 7, tag, *key);
            write_word(out, *epoch);
            write_stamp(out, stamp);
            write_value(out, value);
        }
        Message::Push {
            tag,
            key,
            stamp,
            onward,
            value,
        } => {
            write_request(out, 8, tag, *key);
            write_stamp(out, stamp);
            write_set(out, *onward);
            write_value(out, value);
        }
        Message::Lookup { tag, key } => {
            write_request(out, 9, tag, *key);
        }
        Message::Switch {
            tag,
            key,
            closing,
            opening,
        } => {
            write_request(out, 10, tag, *key);
            write_word(out, *closing);
            write_word(out, *opening);
        }
        Message::Have {
            tag,
            replica,
            version,
            mark,
            value,
        } => {
            write_answer(out, 11, tag, *replica);
            write_stamp(out, version);
            write_stamp(out, mark);
            write_value(out, value);
        }
        Message::Yes { tag, replica } => {
            write_answer(out, 12, tag, *replica);
        }
        Message::Held {
            tag,
            replica,
            stamp,
        } => {
            write_answer(out, 13, tag, *replica);
            write_stamp(out, stamp);
        }
        Message::Gone {
            tag,
            replica,
            epoch,
        } => {
            write_answer(out, 14, tag, *replica);
            write_word(out, *epoch);
        }
        Message::Here {
            tag,
            key,
            epoch,
            policy,
            latest_epoch,
            latest_policy,
        } => {
            write_request(out, 15, tag, *key);
            write_epoch(out, *epoch, policy);
            write_epoch(out, *latest_epoch, latest_policy);
        }
        Message::Switched {
            tag,
            key,
            done,
            epoch,
        } => {
            write_request(out, 16, tag, *key);
            write_flag(out, *done);
            write_word(out, *epoch);
        }
    }
}

/// What a request begins with, and an answer of the directory: its kind, its tag and its key.
fn write_request(out: &mut Vec<u8>, kind: u8, tag: &Tag, key: KeyId)
    requires { HasSpace out.old 14 }
    ensures adds { Adds out.old (kind ∷ (tag_bytes tag.now ++ big w16 key.0)) 14 out.new }
    ensures fits { FitsTag tag.now }
{
    write_kind(out, kind);
    write_tag(out, tag);
    write_short(out, key.0);
}

/// What an answer of a replica begins with: its kind, its tag and the replica.
fn write_answer(out: &mut Vec<u8>, kind: u8, tag: &Tag, replica: DcId)
    requires { HasSpace out.old 13 }
    ensures adds { Adds out.old (kind ∷ (tag_bytes tag.now ++ big w8 replica.0)) 13 out.new }
    ensures fits { FitsTag tag.now }
{
    write_kind(out, kind);
    write_tag(out, tag);
    write_byte(out, replica.0);
}

/// An epoch and its policy.
fn write_epoch(out: &mut Vec<u8>, epoch: u32, policy: &Policy)
    requires sound { IsSoundPolicy policy.now }
    requires space { HasSpace out.old (4 + policy_size policy.now) }
    ensures adds { Adds out.old (big w32 epoch ++ policy_bytes policy.now) (4 + policy_size policy.now) out.new }
    ensures epoch_fits { epoch < 2 ^ 32 }
    ensures fits { FitsPolicy policy.now }
{
    write_word(out, epoch);
    write_policy(out, policy);
}
