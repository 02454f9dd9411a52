//! The members of a policy, each a word.

ghost use Rattle.std.specs.Prelude.{◌≡◌, IfOk};
ghost use Rattle.schedule_text.specs.Policies.{tolerance_says, has_room, quorum_says, near_of, near_says};

use crate::flaw::{Flaw, both};
use crate::numbers::{centre_of, number_of, replicas_of};
use crate::parts::{three, two};
use span_base::{Near, Quorum, What};

/// The greatest number of members of a policy.
pub(crate) const MEMBERS: u8 = 8;

/// The failures that a set stands.
pub(crate) fn tolerance_of(text: &[u8]) -> Result<u8, Flaw>
    ensures { result ≡ tolerance_says text.now }
{
    match number_of(What::F, 3, text) {
        Ok(f) => Ok(f as u8),
        Err(flaw) => Err(flaw),
    }
}

/// Whether there is room for one member more.
pub(crate) fn has_room(room: u8) -> Result<(), Flaw>
    ensures { result ≡ has_room room }
{
    if room == 0 {
        Err(Flaw::Limit {
            what: What::Members,
            number: 9,
        })
    } else {
        Ok(())
    }
}

/// A member of a strong policy, as `MEMBER/READ/WRITE`.
#[tactic(auto, unfolding(crate::specs::Policies::quorum_says))]
pub(crate) fn quorum_of(word: &[u8], replicas: u8) -> Result<Quorum, Flaw>
    ensures { result ≡ quorum_says replicas word.now }
{
    let Some((dc, read, write)) = three(Some(word), b'/') else {
        return Err(Flaw::Syntax);
    };
    let (read, write) = (replicas_of(read, replicas), replicas_of(write, replicas));
    match both(both(centre_of(dc), read), write) {
        Ok(((dc, read), write)) => Ok(Quorum { dc, read, write }),
        Err(flaw) => Err(flaw),
    }
}

/// A member, and the centre at which it reads.
pub(crate) fn near_of(member: &[u8], at: &[u8]) -> Result<Near, Flaw>
    ensures { result ≡ near_of (member.now, at.now) }
{
    match both(centre_of(member), centre_of(at)) {
        Ok((member, at)) => Ok(Near { member, at }),
        Err(flaw) => Err(flaw),
    }
}

/// A member of a direct policy, as `MEMBER>PRIMARY`.
#[tactic(auto, unfolding(crate::specs::Policies::near_says))]
pub(crate) fn near_in(word: &[u8]) -> Result<Near, Flaw>
    ensures { result ≡ near_says word.now }
{
    match two(Some(word), b'>') {
        Some((member, at)) => near_of(member, at),
        None => Err(Flaw::Syntax),
    }
}
