ghost use Rattle.std.specs.Prelude.{◌≡◌, ◌<◌, ◌≤◌, true, length, map, IfOk};
ghost use Rattle.std.specs.List.{All, range_with_len};
ghost use Rattle.world_core.specs.State.{opening_view, opening_proxy};
ghost use Rattle.world_core.specs.Run.{IsHeader};

use crate::event::Header;
use crate::live::LiveCall;
use slot_pool::Pool;
use span_base::{DcId, KeyId, Policy, SetId};
use std::alloc::{AllocError, Global};
use std::marker::Model;
use wire_msg::View;

/// How many calls of a proxy live at once, at most.
const CALLS: u32 = 64;

/// A proxy: where the clients of a centre begin their calls.
#[derive(Drop)]
pub struct Proxy {
    pub(crate) at: DcId,
    pub(crate) stopped: bool,
    /// How many calls it began.
    pub(crate) begun: u32,
    /// The greatest number that it saw in a stamp.
    pub(crate) seen: u64,
    /// What it knows of key 0, key 1 and so on.
    pub(crate) views: Vec<View>,
    pub(crate) calls: Pool<LiveCall>,
}

impl Model for Proxy {
    ghost use Rattle.world_core.specs.State.{Proxy as ProxySeen};
    ghost use Rattle.world_core.specs.Proxies.{IsProxy};

    ghost Value = { ProxySeen };

    ghost view = { λ p. record { at = p.at; stopped = p.stopped; begun = p.begun; seen = p.seen; views = p.views.items; calls = p.calls } };

    ghost invariant = { λ p. IsProxy (record { at = p.at; stopped = p.stopped; begun = p.begun; seen = p.seen; views = p.views.items; calls = p.calls }) };
}

impl Proxy {
    /// A proxy in this centre, as the header opens it.
    pub fn make(alloc: Global, header: &Header, at: DcId) -> Result<Proxy, AllocError>
        requires { IsHeader header.now }
        ensures { IfOk result (λ proxy. proxy ≡ opening_proxy header.now at) }
    {
        Ok(Proxy {
            at,
            stopped: false,
            begun: 0,
            seen: 0,
            views: opening_views(alloc, header.sets.as_slice(), header.keys.as_slice())?,
            calls: Pool::make(alloc, CALLS)?,
        })
    }

    /// Whether it takes and begins nothing any more.
    pub fn is_stopped(&self) -> bool
        ensures { result ≡ self.now.stopped }
    {
        self.stopped
    }

    /// How many calls it began: the next one has the number after it.
    pub fn begun(&self) -> u32
        ensures { result ≡ self.now.begun }
    {
        self.begun
    }

    /// It takes and begins nothing from now on.
    pub fn stop(&mut self)
        ensures { self.new ≡ record self.old { stopped = true } }
    {
        self.stopped = true;
    }
}

/// What a proxy knows of the keys at first: the policies of the first epoch.
fn opening_views(alloc: Global, sets: &[Policy], keys: &[SetId]) -> Result<Vec<View>, AllocError>
    requires few { length keys.now ≤ 1000 }
    requires sets { All (λ set. set.0 < length sets.now) keys.now }
    ensures { IfOk result (λ views. views.items ≡ map (opening_view sets.now keys.now) (range_with_len 0 (length keys.now))) }
{
    let mut views = Vec::with_capacity(alloc, keys.len())?;
    for key in 0..keys.len() as u16 {
        views.push(opening_view(sets, keys, KeyId(key))?)?;
    }
    Ok(views)
}

fn opening_view(sets: &[Policy], keys: &[SetId], key: KeyId) -> Result<View, AllocError>
    requires key { key.0 < length keys.now }
    requires sets { All (λ set. set.0 < length sets.now) keys.now }
    ensures { IfOk result (λ view. view ≡ opening_view sets.now keys.now key.0) }
{
    let set = keys[usize::from(key.0)];
    Ok(View {
        key,
        epoch: 1,
        policy: sets[usize::from(set.0)].clone()?,
    })
}
