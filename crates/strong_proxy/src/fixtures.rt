//! What the tests share: a call on one key at three replicas, of which one may stop, whose proxy
//! stands in centre 0, written short.

ghost use Rattle.std.specs.Prelude.{IfOk};
ghost use Rattle.wire_msg.specs.Lawful.{IsLawful, IsLawfulView};

use std::alloc::{AllocError, Global};
use store_fixtures::{KEY, gone, have, held, here, other_stamp, quorum_policy, value, yes};
use wire_msg::{Message, View};

/// An answer: its phase, its replica, and what it tells.
#[derive(Clone, Copy)]
pub enum Heard {
    /// The numbers of a version and a mark, in phase 1.
    Have(u8, u8, u8),
    Yes(u8, u8),
    /// The number of a stamp.
    Held(u8, u8, u8),
    /// The frozen epoch.
    Gone(u8, u8, u8),
    /// The epoch of the view that the proxy has from then on, and its one member.
    Here(u8, u32, u8),
}

/// An answer that never counts: no phase has this number.
pub const STRAY: Heard = Heard::Yes(99, 0);

/// The view under which `member` reads from and writes to three replicas.
pub fn view_of(alloc: Global, epoch: u32, member: u8) -> Result<View, AllocError>
    ensures { IfOk result IsLawfulView }
{
    let policy = quorum_policy(alloc, member)?;
    Ok(View {
        key: KEY,
        epoch: epoch.max(1),
        policy,
    })
}

/// The answer.
pub fn answer(alloc: Global, heard: Heard) -> Result<Message, AllocError>
    ensures { IfOk result IsLawful }
{
    Ok(match heard {
        Heard::Have(replica, version, mark) => {
            let value = value(alloc, version)?;
            have(1, replica, other_stamp(version), other_stamp(mark), value)
        }
        Heard::Yes(phase, replica) => yes(phase, replica),
        Heard::Held(phase, replica, number) => held(phase, replica, other_stamp(number)),
        Heard::Gone(phase, replica, epoch) => gone(phase, replica, u32::from(epoch)),
        Heard::Here(phase, epoch, member) => here(
            phase,
            epoch,
            quorum_policy(alloc, member)?,
            epoch,
            quorum_policy(alloc, member)?,
        ),
    })
}
