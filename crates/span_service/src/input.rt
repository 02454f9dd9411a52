//! Requests are read from a stream, however it cuts its bytes.

ghost use Rattle.std.specs.Prelude.{◌≡◌, ◌<◌, ◌≤◌, ◌+◌, ◌-◌, [], length, take, drop, IfOk, IsTrue, is_err};
ghost use Rattle.span_base.specs.Counts.{Rose};
ghost use Rattle.span_service.specs.Inputs.{Fills, Refills};

use crate::Stream;
use replica_journal::Failed;
use std::alloc::{AllocError, Global};
use std::marker::Model;

/// How many bytes are read at once: more than the longest request has.
const SIZE: usize = 65_536;

/// The bytes that were read from a stream and not used yet.
#[derive(Debug, Drop)]
pub(crate) struct Input {
    bytes: Vec<u8>,
    /// Where those that weren't used begin.
    from: usize,
    /// Where they end.
    to: usize,
}

impl Model for Input {
    ghost use Rattle.std.specs.Prelude.{ℕ, List, ◌≡◌, ◌≤◌, length, take, drop};

    ghost Value = { List ℕ };

    ghost view = { λ i. drop i.from (take i.to i.bytes.items) };

    ghost invariant = { λ i. (length i.bytes.items ≡ 65536) × (i.from ≤ i.to) × (i.to ≤ 65536) };
}

impl Input {
    /// Nothing read so far.
    pub(crate) fn make(alloc: Global) -> Result<Input, AllocError>
        ensures { IfOk result (λ input. input ≡ []) }
    {
        Ok(Input {
            bytes: vec![in alloc; 0; SIZE]?,
            from: 0,
            to: 0,
        })
    }

    /// The bytes that weren't used yet.
    pub(crate) fn rest(&self) -> &[u8]
        ensures { result.now ≡ self.now }
    {
        &self.bytes[self.from..self.to]
    }

    /// Uses so many bytes.
    pub(crate) fn pass(&mut self, count: usize)
        requires { count ≤ length self.old }
        ensures { self.new ≡ drop count self.old }
    {
        self.from += count;
    }

    /// Reads more bytes behind those that weren't used, and answers whether there were any.
    pub(crate) fn read<S: Stream>(&mut self, stream: &mut S) -> Result<bool, Failed>
        requires { length self.old ≤ 8193 }
        ensures fills { Fills (S.coming stream.old) (S.coming stream.new) self.old self.new result }
        ensures taken_stays { S.taken stream.new ≡ S.taken stream.old }
        ensures around_stays { S.around stream.new ≡ S.around stream.old }
        ensures faults_stay { S.faults stream.old ≤ S.faults stream.new }
        ensures failed { IsTrue (is_err result) → Rose (S.faults stream.old) (S.faults stream.new) }
    {
        let kept = self.to - self.from;
        let end = refill(stream, self.bytes.as_mut_slice(), self.from, self.to)?;
        self.from = 0;
        self.to = end;
        Ok(end > kept)
    }
}

// Moves the bytes between two places to the front, reads more behind them, and answers where they
// end.
fn refill<S: Stream>(
    stream: &mut S,
    bytes: &mut [u8],
    from: usize,
    to: usize,
) -> Result<usize, Failed>
    requires order { from ≤ to }
    requires within { to ≤ length bytes.old }
    requires room { to < from + length bytes.old }
    ensures size { length bytes.new ≡ length bytes.old }
    ensures end { IfOk result (λ end. end ≤ length bytes.new) }
    ensures fills { Refills (S.coming stream.old) (S.coming stream.new) (drop from (take to bytes.old)) bytes.new (to - from) result }
    ensures kept { take (to - from) bytes.new ≡ drop from (take to bytes.old) }
    ensures taken_stays { S.taken stream.new ≡ S.taken stream.old }
    ensures around_stays { S.around stream.new ≡ S.around stream.old }
    ensures faults_stay { S.faults stream.old ≤ S.faults stream.new }
    ensures failed { IsTrue (is_err result) → Rose (S.faults stream.old) (S.faults stream.new) }
{
    let kept = to - from;
    move_to_front(bytes, from, to);
    let count = stream.read(&mut bytes[kept..])?;
    Ok(kept + count)
}

// Moves the bytes between two places to the front.
fn move_to_front(bytes: &mut [u8], from: usize, to: usize)
    requires order { from ≤ to }
    requires within { to ≤ length bytes.old }
    ensures front { take (to - from) bytes.new ≡ drop from (take to bytes.old) }
    ensures size { length bytes.new ≡ length bytes.old }
{
    bytes.copy_within(from..to, 0);
}
