ghost use Rattle.std.specs.Prelude.{◌≡◌, ◌≤◌, List, drop, length};
ghost use Rattle.frame_link.specs.Deals.{dealt, oldest, once_more, pass_one};
ghost use Rattle.frame_link.specs.Turns.{IsTurn};
ghost use Rattle.frame_link.specs.declared.deal.Deal.{Deal};

use crate::deal::Deal;
use crate::frames::Frames;

/// Where an answer came from.
#[derive(Clone, Copy, Debug)]
pub(crate) enum Origin {
    /// There was none.
    Nowhere,
    /// The frame sent as this number.
    Carried(usize),
    /// The deal of this number.
    Forged(usize),
}

/// Where the next answer comes from, how many frames are passed then, and how many deals are
/// used.
#[derive(Clone, Copy, Debug)]
pub(crate) struct Turn {
    pub(crate) origin: Origin,
    pub(crate) passed: usize,
    pub(crate) used: usize,
}

/// What the first deal that isn't used gives.
pub(crate) fn next_turn(deals: &[Deal], used: usize, frames: &Frames, passed: usize) -> Turn
    requires { used ≤ length deals.now }
    ensures { IsTurn frames.now deals.now (dealt frames.now passed (drop used deals.now)) result }
{
    let mut count = passed;
    for i in used..deals.len() {
        match &deals[i] {
            Deal::Next => return oldest_turn(frames, count, i + 1),
            Deal::Drop => count = one_passed(frames, count),
            Deal::Again { n } => return turn_again(frames, *n as usize, count, i + 1),
            Deal::Forge { .. } => {
                return Turn {
                    origin: Origin::Forged(i),
                    passed: count,
                    used: i + 1,
                };
            }
        }
    }
    oldest_turn(frames, count, deals.len())
}

// The oldest frame that isn't passed, or nothing.
fn oldest_turn(frames: &Frames, passed: usize, used: usize) -> Turn
    ensures { (deals : List Deal) → used ≤ length deals → IsTurn frames.now deals (oldest frames.now passed (drop used deals)) result }
{
    if passed < frames.len() {
        Turn {
            origin: Origin::Carried(passed),
            passed: passed + 1,
            used,
        }
    } else {
        Turn {
            origin: Origin::Nowhere,
            passed,
            used,
        }
    }
}

// The frame of this number, or the oldest that isn't passed.
fn turn_again(frames: &Frames, n: usize, passed: usize, used: usize) -> Turn
    ensures { (deals : List Deal) → used ≤ length deals → IsTurn frames.now deals (once_more frames.now n passed (drop used deals)) result }
{
    if n < frames.len() {
        Turn {
            origin: Origin::Carried(n),
            passed,
            used,
        }
    } else {
        oldest_turn(frames, passed, used)
    }
}

// How many frames are passed with one more.
fn one_passed(frames: &Frames, passed: usize) -> usize
    ensures { result ≡ pass_one frames.now passed }
{
    if passed < frames.len() {
        passed + 1
    } else {
        passed
    }
}
