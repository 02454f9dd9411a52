//! What is drawn for a call: deliveries, a new epoch at times, the end of a late call, the call.

ghost use Rattle.std.specs.Prelude.{◌≡◌, ℕ, ◌+◌, ◌<◌, ◌≤◌, IfOk, OnOk};
ghost use Rattle.world_core.specs.State.{proxy_at};
ghost use Rattle.run_generator.specs.Chosen.{Chosen, is_500th, late_call, work_drawn, delivers, deliveries, publishes, gives_up, starts, calls, turn};
ghost use Rattle.run_generator.specs.Standing.{StandsFor, IsSound, Goes};

use crate::drawing::{below, next};
use crate::generator::Generator;
use crate::opening::table;
use message_wire::Wire;
use run_marks::Work;
use span_base::Value;
use std::alloc::{AllocError, Global};
use world_core::Event;

/// How many messages are delivered before each call.
const DELIVERIES: u32 = 24;

/// One of so many messages that were sent last is delivered.
const RECENT: u32 = 64;

const PROXIES: u32 = 6;

const KEYS: u32 = 8;

/// How many calls a proxy begins while one call waits, before that is given up.
const PATIENCE: u32 = 7;

impl Generator {
    /// All that is drawn for the call of this number.
    pub(crate) fn turn(&mut self, alloc: Global, k: u32) -> Result<(), AllocError>
        requires sound { IsSound self.old }
        requires few { self.old.cloud.events + 27 ≤ 1000000 }
        ensures stands { OnOk result ((c : Chosen) → StandsFor self.old c → StandsFor self.new (turn k c)) }
        ensures goes { OnOk result (Goes self.old self.new 27) }
    {
        self.deliver_some(alloc)?;
        self.publish(alloc, k)?;
        self.call(alloc, k)
    }

    fn deliver_some(&mut self, alloc: Global) -> Result<(), AllocError>
        requires sound { IsSound self.old }
        requires few { self.old.cloud.events + 24 ≤ 1000000 }
        ensures stands { OnOk result ((c : Chosen) → StandsFor self.old c → StandsFor self.new (deliveries 24 c)) }
        ensures goes { OnOk result (Goes self.old self.new 24) }
    {
        for number in 0..DELIVERIES {
            self.deliver(alloc)?;
        }
        Ok(())
    }

    /// One of the latest messages is delivered, if any was sent.
    fn deliver(&mut self, alloc: Global) -> Result<(), AllocError>
        requires sound { IsSound self.old }
        requires few { self.old.cloud.events + 1 ≤ 1000000 }
        ensures stands { OnOk result ((c : Chosen) → StandsFor self.old c → StandsFor self.new (delivers c)) }
        ensures goes { OnOk result (Goes self.old self.new 1) }
    {
        let sent = self.cloud.wire().sent();
        if sent == 0 {
            return Ok(());
        }
        self.state = next(self.state);
        let message = sent - 1 - below(sent.min(RECENT), self.state);
        self.happen(alloc, &Event::Deliver { message })
    }

    /// The set's policy is published once more, at every 500th call.
    #[tactic(auto, using(crate::proofs::Header::may_publish))]
    fn publish(&mut self, alloc: Global, k: u32) -> Result<(), AllocError>
        requires sound { IsSound self.old }
        requires few { self.old.cloud.events + 1 ≤ 1000000 }
        ensures stands { OnOk result ((c : Chosen) → StandsFor self.old c → StandsFor self.new (publishes k c)) }
        ensures goes { OnOk result (Goes self.old self.new 1) }
    {
        if !is_500th(k) {
            return Ok(());
        }
        let table = table(alloc)?;
        self.happen(alloc, &Event::Publish { table })
    }

    /// A proxy gives a late call up, if it has one, and begins a call.
    fn call(&mut self, alloc: Global, k: u32) -> Result<(), AllocError>
        requires sound { IsSound self.old }
        requires few { self.old.cloud.events + 2 ≤ 1000000 }
        ensures stands { OnOk result ((c : Chosen) → StandsFor self.old c → StandsFor self.new (calls k c)) }
        ensures goes { OnOk result (Goes self.old self.new 2) }
    {
        self.state = next(self.state);
        let proxy = below(PROXIES, self.state);
        self.give_up(alloc, proxy)?;
        self.start(alloc, k, proxy)
    }

    fn give_up(&mut self, alloc: Global, proxy: u32) -> Result<(), AllocError>
        requires sound { IsSound self.old }
        requires few { self.old.cloud.events + 1 ≤ 1000000 }
        ensures stands { OnOk result ((c : Chosen) → StandsFor self.old c → StandsFor self.new (gives_up proxy c)) }
        ensures goes { OnOk result (Goes self.old self.new 1) }
    {
        match self.late_call(proxy) {
            None => Ok(()),
            Some(seq) => self.happen(alloc, &Event::GiveUp { proxy, seq }),
        }
    }

    /// The call that the proxy has begun before its last seven, if it is live.
    #[tactic(auto, using(crate::proofs::Late::proxy_there, crate::proofs::Late::none_late))]
    fn late_call(&self, proxy: u32) -> Option<u32>
        ensures { result ≡ late_call (proxy_at self.now.cloud.store proxy) }
    {
        let proxy = self.cloud.proxy(proxy)?;
        let begun = proxy.begun();
        if begun > PATIENCE && proxy.is_live(begun - PATIENCE) {
            Some(begun - PATIENCE)
        } else {
            None
        }
    }

    fn start(&mut self, alloc: Global, k: u32, proxy: u32) -> Result<(), AllocError>
        requires sound { IsSound self.old }
        requires few { self.old.cloud.events + 1 ≤ 1000000 }
        ensures stands { OnOk result ((c : Chosen) → StandsFor self.old c → StandsFor self.new (starts k proxy c)) }
        ensures goes { OnOk result (Goes self.old self.new 1) }
    {
        self.state = next(self.state);
        let key = below(KEYS, self.state);
        let (work, state) = work_drawn(alloc, k, self.state)?;
        self.state = state;
        self.happen(alloc, &Event::Start { proxy, key, work })
    }
}

/// What the call of this number does, and how the drawing stands then.
fn work_drawn(alloc: Global, k: u32, state: u64) -> Result<(Work, u64), AllocError>
    ensures { IfOk result (λ drawn. drawn ≡ work_drawn k state) }
{
    if is_500th(k) {
        return Ok((Work::Move, state));
    }
    let state = next(state);
    if below(2, state) == 0 {
        return Ok((Work::Read, state));
    }
    let value = Vec::from_slice(alloc, &k.to_be_bytes())?;
    Ok((Work::Write(Value::from_vec(value)), state))
}

fn is_500th(k: u32) -> bool
    ensures { result ≡ is_500th k }
{
    k % 500 == 0
}
