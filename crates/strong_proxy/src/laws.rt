ghost use Rattle.strong_proxy.specs.Lawful.{StoredAtQuorum};

/// Where a write ends as stored, all but at most `f` replicas of its leg's write set have said Yes
/// to its Store, with the answer that ended it counted. Its reply tells the leg's ticket.
pub fn stored_writes_have_their_quorum()
    ensures { StoredAtQuorum }
{}
