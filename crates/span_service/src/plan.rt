//! The words of the command line.

ghost use Rattle.std.specs.Prelude.{◌≡◌, ◌≤◌, IfSome};
ghost use Rattle.span_service.specs.Words.{number_between, plan_of, port_in, with_replica};

use span_base::{Word, read_number};

/// What the words ask for.
#[derive(Clone, Copy, Debug, PartialEq, Eq)]
pub(crate) struct Plan {
    /// The number of the replica.
    pub replica: u8,
    /// How many keys it has.
    pub keys: u16,
    /// The port at which it is served.
    pub port: u16,
    /// How many connections are served.
    pub conns: u32,
}

/// The port that the words name, or None where they aren't four: the number of a replica, 0 to 15,
/// its number of keys, 1 to 1,000, a port, 1 to 65,535, and a number of connections, up to
/// 1,000,000.
pub fn port_of(words: &[Word]) -> Option<u16>
    ensures { result ≡ port_in (plan_of words.now) }
{
    match plan_of(words) {
        Some(plan) => Some(plan.port),
        None => None,
    }
}

/// What the words ask for, or None where they are of another form.
pub(crate) fn plan_of(words: &[Word]) -> Option<Plan>
    ensures plan { result ≡ plan_of words.now }
    ensures replica { IfSome result (λ plan. plan.replica ≤ 15) }
    ensures keys { IfSome result (λ plan. plan.keys ≤ 1000) }
{
    match words {
        [replica, keys, port, conns] => read_plan(replica, keys, port, conns),
        _ => None,
    }
}

fn read_plan(replica: &Word, keys: &Word, port: &Word, conns: &Word) -> Option<Plan>
    ensures plan { result ≡ with_replica (number_between 0 15 replica.now) keys.now port.now conns.now }
    ensures replica { IfSome result (λ plan. plan.replica ≤ 15) }
    ensures keys { IfSome result (λ plan. plan.keys ≤ 1000) }
{
    let replica = number_between(0, 15, replica)?;
    let keys = number_between(1, 1_000, keys)?;
    let port = number_between(1, 65_535, port)?;
    let conns = number_between(0, 1_000_000, conns)?;
    Some(Plan {
        replica: replica as u8,
        keys: keys as u16,
        port: port as u16,
        conns: conns as u32,
    })
}

// The number that a word is, where it is one from `low` to `high`.
#[tactic(auto, using(crate::proofs::Numbers::words))]
fn number_between(low: u64, high: u64, word: &Word) -> Option<u64>
    ensures number { result ≡ number_between low high word.now }
    ensures within { IfSome result (λ number. number ≤ high) }
{
    let Ok(number) = read_number(word.as_bytes(), u128::from(high)) else {
        return None;
    };
    let number = number as u64;
    if low <= number { Some(number) } else { None }
}
