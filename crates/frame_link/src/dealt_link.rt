ghost use Rattle.std.specs.Prelude.{◌≡◌, ◌≤◌, [], All, Some, length, IfOk, OnOk, OnErr};
ghost use Rattle.frame_link.specs.Frames.{IsShort, IsHonest, IsFaithful, answer_of, with_frame};
ghost use Rattle.frame_link.specs.Deals.{IsShortDeal, are_honest, are_faithful};
ghost use Rattle.frame_link.specs.Memory.{next_of, after_dealt};
ghost use Rattle.frame_link.specs.Turns.{IsKnown, answer_from};

use crate::Arrival;
use crate::deal::Deal;
use crate::frames::{Frames, put_in};
use crate::turn::{Origin, next_turn};
use std::alloc::{AllocError, Global};
use std::marker::Model;

/// What both links in memory have: the frames sent, and what became of them by the deals.
#[derive(Debug, Drop)]
pub(crate) struct DealtLink {
    frames: Frames,
    origins: Vec<Origin>,
    passed: usize,
    deals: Vec<Deal>,
    used: usize,
}

impl Model for DealtLink {
    ghost use Rattle.frame_link.specs.Memory.{HeldDeals};
    ghost use Rattle.frame_link.specs.DealtLinks.{IsDealtLink, held_by};

    ghost Value = { HeldDeals };

    ghost view = { λ l. held_by l.frames l.origins.items l.passed l.deals.items l.used };

    ghost invariant = { λ l. IsDealtLink l.frames l.origins.items l.passed l.deals.items l.used };
}

impl DealtLink {
    /// Nothing was sent, and no deal is used.
    pub(crate) fn new(alloc: Global, deals: Vec<Deal>) -> DealtLink
        requires { All IsShortDeal deals.items }
        ensures { result ≡ record { sent = []; answers = []; passed = 0; left = deals.items; honest = are_honest deals.items; faithful = are_faithful deals.items } }
    {
        DealtLink {
            frames: Frames::new(alloc),
            origins: Vec::new(alloc),
            passed: 0,
            deals,
            used: 0,
        }
    }

    /// Keeps a frame for its node.
    pub(crate) fn send(&mut self, to: u16, frame: &[u8]) -> Result<(), AllocError>
        requires { length frame.now ≤ 8192 }
        ensures ok { OnOk result (self.new ≡ record self.old { sent = with_frame self.old.sent to frame.now }) }
        ensures err { OnErr result (self.new ≡ self.old) }
    {
        self.frames.push(to, frame)?;
        Ok(())
    }

    /// The next arrival, by the first deal left.
    pub(crate) fn next(&mut self, buf: &mut [u8]) -> Result<Arrival, AllocError>
        requires { 8192 ≤ length buf.old }
        ensures short { IfOk result IsShort }
        ensures answer { IfOk result (λ arrival. answer_of buf.new arrival ≡ (next_of self.old).answer) }
        ensures ok { OnOk result (self.new ≡ after_dealt self.old (next_of self.old)) }
        ensures err { OnErr result (self.new ≡ self.old) }
        ensures honestly { IfOk result (λ arrival. IsHonest (Some self.old.honest) (Some self.old.sent) (answer_of buf.new arrival)) }
        ensures faithfully { IfOk result (λ arrival. IsFaithful (Some self.old.faithful) (Some self.old.sent) (Some self.old.answers) (answer_of buf.new arrival)) }
    {
        let turn = next_turn(&self.deals, self.used, &self.frames, self.passed);
        self.origins.push(turn.origin)?;
        self.passed = turn.passed;
        self.used = turn.used;
        Ok(give(&self.frames, &self.deals, turn.origin, buf))
    }
}

// Puts what came from there into the front of the buffer.
fn give(frames: &Frames, deals: &[Deal], origin: Origin, buf: &mut [u8]) -> Arrival
    requires deals { All IsShortDeal deals.now }
    requires room { 8192 ≤ length buf.old }
    ensures short { IsShort result }
    ensures gives { answer_of buf.new result ≡ answer_from frames.now deals.now origin }
{
    match origin {
        Origin::Nowhere => Arrival::Nothing,
        Origin::Carried(n) => frames.give(n, buf),
        Origin::Forged(n) => match deals.get(n) {
            Some(Deal::Forge { to, frame }) => put_in(frame.as_slice(), *to, buf),
            _ => Arrival::Nothing,
        },
    }
}
