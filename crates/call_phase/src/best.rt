ghost use Rattle.std.specs.Prelude.{◌≡◌, OnOk, OnErr, Some};
ghost use Rattle.call_phase.specs.Best.{better, greatest, found_of, lent_found};

use span_base::Value;
use std::alloc::AllocError;
use ticket_rules::Stamp;

/// A version that a replica keeps: its stamp and its value.
#[derive(Debug, PartialEq, Eq, Drop)]
pub struct Found {
    pub stamp: Stamp,
    pub value: Value,
}

/// A version whose value is lent.
#[derive(Clone, Copy)]
pub struct Lent<'a> {
    pub stamp: Stamp,
    pub value: &'a Value,
}

/// What was found so far, lent.
pub fn lend(best: &Option<Found>) -> Option<Lent<'_>>
    ensures { lent_found result ≡ best.now }
{
    match best {
        Some(found) => Some(Lent {
            stamp: found.stamp,
            value: &found.value,
        }),
        None => None,
    }
}

/// What `take_better` would keep, lent: the greater of what was found so far and one more version.
/// Of equal stamps the first one stays.
pub fn greatest<'a>(best: &'a Option<Found>, stamp: &Stamp, value: &'a Value) -> Lent<'a>
    ensures greatest { found_of result ≡ greatest best.now stamp.now value.now }
    ensures better { Some (found_of result) ≡ better best.now stamp.now value.now }
{
    match best {
        Some(found) if *stamp <= found.stamp => Lent {
            stamp: found.stamp,
            value: &found.value,
        },
        _ => Lent {
            stamp: *stamp,
            value,
        },
    }
}

/// Keeps the greatest version of the answers that counted: this one in place of the one that is
/// kept, where none is or its stamp is greater. So of equal stamps the first one stays.
pub fn take_better(best: &mut Option<Found>, stamp: &Stamp, value: &Value) -> Result<(), AllocError>
    ensures ok { OnOk result (best.new ≡ better best.old stamp.now value.now) }
    ensures err { OnErr result (best.new ≡ best.old) }
{
    let stays = match best {
        Some(found) => *stamp <= found.stamp,
        None => false,
    };
    if !stays {
        *best = Some(Found {
            stamp: *stamp,
            value: value.clone()?,
        });
    }
    Ok(())
}
