ghost use Rattle.span_base.specs.declared.ids.KeyId.{KeyId};
ghost use Rattle.wire_msg.specs.declared.message.Message.{Message};
ghost use Rattle.replica_core.specs.Rule.{State, kept_at, step};
ghost use Rattle.replica_core.specs.Rising.{Rises};

/// Whatever message a replica takes, nothing that it keeps of any key falls: neither the version,
/// nor the mark, the fence or the frozen epoch. A value changes only with its version.
pub fn nothing_falls()
    ensures { (state : State) (message : Message) (key : KeyId) → Rises (kept_at state key) (kept_at (step state message).state key) }
{}
