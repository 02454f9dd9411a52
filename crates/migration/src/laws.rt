//! What holds of the runs of moves. The functions do nothing: each contract is a law.

ghost use Rattle.std.specs.Prelude.{◌≡◌, ℕ, ◌+◌, ◌≤◌, List, ◌∷◌, length};
ghost use Rattle.std.specs.List.{Contains};
ghost use Rattle.span_base.specs.declared.ids.KeyId.{KeyId};
ghost use Rattle.span_base.specs.DcSet.{centres_of};
ghost use Rattle.span_base.specs.PolicyParts.{faults_of, replicas_of};
ghost use Rattle.wire_msg.specs.declared.tag.Tag.{Tag};
ghost use Rattle.wire_msg.specs.declared.actor.Actor.{Actor};
ghost use Rattle.wire_msg.specs.declared.message.Message.{Message};
ghost use Rattle.migration.specs.Move.{step};
ghost use Rattle.migration.specs.Runs.{after, sent, IsStored};
ghost use Rattle.migration.specs.Strong.{strong, first_write_set};
ghost use Rattle.migration.specs.Eventual.{eventual};

/// The move of a strong key never switches before its seeds: where it asks the directory to open
/// an epoch, the directory told it that epoch's policy, it sent the seed to the first write set,
/// and all but `f` of that set said yes to it.
pub fn strong_moves_seed_before_they_switch()
    ensures { (first : Tag) (key : KeyId) (earlier : List Message) (message : Message) (to : Actor) (tag : Tag) (at : KeyId) (closing opening : ℕ) →
        Contains (step strong (after strong first key earlier) message).out.posts (record { to = to; message = Message.Switch tag at closing opening }) →
        IsStored first_write_set (λ policy answered. length (centres_of (first_write_set policy)) ≤ length (centres_of answered) + faults_of policy)
        key (sent strong first key earlier) (message ∷ earlier) opening }
{}

/// Nor does that of an eventual key: it sent the seed to every replica of the epoch, and `f + 1`
/// of them said yes to it.
pub fn eventual_moves_seed_before_they_switch()
    ensures { (first : Tag) (key : KeyId) (earlier : List Message) (message : Message) (to : Actor) (tag : Tag) (at : KeyId) (closing opening : ℕ) →
        Contains (step eventual (after eventual first key earlier) message).out.posts (record { to = to; message = Message.Switch tag at closing opening }) →
        IsStored replicas_of (λ policy answered. faults_of policy + 1 ≤ length (centres_of answered))
        key (sent eventual first key earlier) (message ∷ earlier) opening }
{}
