ghost use Rattle.eventual_law.specs.Laws.{EarlierStampsAreBelow, ReplicasAgree, ReplicasKeepTheirGreatest, StoredPutsStay, ValuesAreThoseOfPuts};

/// After every run each replica's version and value of an eventual key are its greatest push: the
/// Push or Seed with the greatest stamp among those that it took and didn't refuse.
pub fn replicas_keep_their_greatest()
    ensures { ReplicasKeepTheirGreatest }
{}

/// In every run each value that a get gives with a stamp above zero is that of the put with that
/// ticket, which had begun.
pub fn values_are_those_of_puts()
    ensures { ValuesAreThoseOfPuts }
{}

/// After every run the ticket of each put that was answered `Stored` is at most the version of
/// f + 1 replicas of the key's current policy, over any number of moves.
pub fn stored_puts_stay()
    ensures { StoredPutsStay }
{}

/// After every run the current epoch has one opening version: the stamp that the move which opened it
/// has seeded, or zero in the first one. Each version of a replica with the stamp of an earlier epoch
/// is at most it.
pub fn earlier_stamps_are_below()
    ensures { EarlierStampsAreBelow }
{}

/// Where no event was refused, no actor is stopped and every message was delivered, all replicas of
/// the key's current policy hold one version and value, with a stamp that is at least the ticket of
/// each put that was answered `Stored`; the replicas of the key's policies are replicas of the run.
pub fn replicas_agree()
    ensures { ReplicasAgree }
{}
