//! What holds of all disks that tell their history, and of all images. The functions do nothing:
//! each contract is a law.

ghost use Rattle.std.specs.Prelude.{◌≡◌, ℕ, Bool, [], List, length, Result};
ghost use Rattle.wire_msg.specs.declared.message.Message.{Message};
ghost use Rattle.replica_core.specs.declared.journal.TakeFault.{TakeFault};
ghost use Rattle.replica_core.specs.Rule.{State};
ghost use Rattle.replica_journal.specs.declared.open_fault.OpenCause.{OpenCause};
ghost use Rattle.replica_journal.specs.declared.opening.Opened.{Opened};
ghost use Rattle.replica_journal.specs.Disk.{History, GoesOn, IsLawfulHistory, IsImage, bytes_of};
ghost use Rattle.replica_journal.specs.Memory.{crashed};
ghost use Rattle.replica_journal.specs.Records.{HasRecords, IsDamagedAt, IsSoundDisk};
ghost use Rattle.replica_journal.specs.Opened.{IsOpening};
ghost use Rattle.replica_journal.specs.Taken.{IsTaken};

/// A crash may leave the disk as it reads.
pub fn reading_is_an_image()
    ensures { (history : History) → IsLawfulHistory history → IsImage history (bytes_of history) }
{}

/// What the crash of a disk in memory keeps was one of its images, and is its only one from then on.
pub fn crashes_keep_an_image()
    ensures was { (new : Bool) (history : History) → IsLawfulHistory history → IsImage history (bytes_of (crashed new history)) }
    ensures alone { (new : Bool) (history : History) (image : List ℕ) → IsImage (crashed new history) image → image ≡ bytes_of (crashed new history) }
{}

/// An image holds the records of one row of messages alone.
pub fn images_hold_one_row()
    ensures { (keys : ℕ) (image : List ℕ) (a b : List Message) → HasRecords keys image a → HasRecords keys image b → a ≡ b }
{}

/// An image that holds records isn't damaged.
pub fn sound_images_are_undamaged()
    ensures { (keys : ℕ) (image : List ℕ) (at : ℕ) (messages : List Message) → IsDamagedAt keys image at → HasRecords keys image messages → ⊥ }
{}

/// A sound disk isn't refused as damaged.
pub fn sound_disks_are_undamaged()
    ensures { (keys : ℕ) (history : History) (at : ℕ) → IsSoundDisk keys history → IsDamagedAt keys (bytes_of history) at → ⊥ }
{}

/// A disk whose images are all empty is sound.
pub fn empty_disks_are_sound()
    ensures { (keys : ℕ) (history : History) → IsLawfulHistory history → ((image : List ℕ) → IsImage history image → image ≡ []) → IsSoundDisk keys history }
{}

/// A sound disk stays sound at each moment of the opening of a journal, and after it.
pub fn openings_stay_sound()
    ensures { (number keys : ℕ) (before after moment : History) (result : Result Opened OpenCause) → IsSoundDisk keys before → IsOpening number keys before after result → GoesOn before moment → GoesOn moment after → IsSoundDisk keys moment }
{}

/// A sound disk stays sound at each moment in which a message is taken, and after it.
pub fn takes_stay_sound()
    ensures { (before after moment : History) (state : State) (message : Message) (result : Result (Unit {0}) TakeFault) → IsSoundDisk (length state.kept) before → IsTaken before after state message result → GoesOn before moment → GoesOn moment after → IsSoundDisk (length state.kept) moment }
{}

/// A sound disk stays sound over a crash.
pub fn crashes_stay_sound()
    ensures { (keys : ℕ) (new : Bool) (history : History) → IsSoundDisk keys history → IsSoundDisk keys (crashed new history) }
{}
