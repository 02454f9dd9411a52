//! What holds of all directories. The function does nothing: its contract is a law.

ghost use Rattle.std.specs.Prelude.{List};
ghost use Rattle.wire_msg.specs.declared.message.Message.{Message};
ghost use Rattle.epoch_directory.specs.declared.table.SetPolicy.{SetPolicy};
ghost use Rattle.epoch_directory.specs.State.{State};
ghost use Rattle.epoch_directory.specs.Tables.{after_publish};
ghost use Rattle.epoch_directory.specs.Step.{step};
ghost use Rattle.epoch_directory.specs.Laws.{Follows};

/// Whatever a directory takes or publishes, no key goes back to an earlier epoch, and a published
/// epoch keeps the policy of every set.
pub fn epochs_are_kept()
    ensures step { (state : State) (message : Message) → Follows state (step state message).state }
    ensures publish { (state : State) (table : List SetPolicy) → Follows state (after_publish state table) }
{}
