//! A record and what a crash leaves, by hand.

ghost use Rattle.std.specs.Prelude.{◌≡◌, [], ◌∷◌};
ghost use Rattle.replica_journal.specs.Disk.{bytes_of, IsImage};
ghost use Rattle.replica_journal.specs.Records.{records_of};
ghost use Rattle.replica_journal.specs.Examples.{freeze, rewritten};

/// The record of a message.
pub fn worked_records()
    ensures none { records_of [] ≡ [] }
    ensures one { records_of (freeze ∷ []) ≡ 1 ∷ 0 ∷ 18 ∷ 6 ∷ 3 ∷ 2 ∷ 0 ∷ 0 ∷ 0 ∷ 1 ∷ 0 ∷ 0 ∷ 0 ∷ 1 ∷ 4 ∷ 0 ∷ 5 ∷ 0 ∷ 0 ∷ 0 ∷ 7 ∷ [] }
{}

/// How a disk reads, and what a crash may leave of it: any bytes in the range that isn't safe, and
/// any length from the safe one on.
pub fn worked_images()
    ensures reads { bytes_of rewritten ≡ 1 ∷ 7 ∷ 8 ∷ 9 ∷ [] }
    ensures short { IsImage rewritten (1 ∷ 5 ∷ []) }
    ensures long { IsImage rewritten (1 ∷ 5 ∷ 6 ∷ 6 ∷ []) }
    ensures outside { IsImage rewritten (0 ∷ 2 ∷ []) → ⊥ }
    ensures too_short { IsImage rewritten (1 ∷ []) → ⊥ }
{}
