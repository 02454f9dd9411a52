//! How a store opens, and how a replica's place is taken by another.

ghost use Rattle.std.specs.Prelude.{◌≡◌, ◌<◌, ◌≤◌, false, [], length, map, slice_set, slice_index_or, IfOk};
ghost use Rattle.std.specs.List.{range_with_len};
ghost use Rattle.replica_core.specs.Rule.{opening_state};
ghost use Rattle.world_core.specs.State.{opening, opening_proxy, key_set, replica_at};
ghost use Rattle.world_core.specs.Step.{with_replica};
ghost use Rattle.world_core.specs.Ends.{no_journal};
ghost use Rattle.world_core.specs.Run.{IsHeader};

use crate::cloud::Cloud;
use crate::event::Header;
use crate::proxy::Proxy;
use crate::seat::Seat;
use epoch_directory::{Directory, KeySet};
use message_wire::Wire;
use replica_core::{Replica, Taker};
use span_base::SetId;
use std::alloc::{AllocError, Global};
use std::mem;

impl<W: Wire + Drop> Cloud<W, Replica> {
    /// The store that a header opens, over replicas in memory.
    pub fn make(alloc: Global, header: Header, wire: W) -> Result<Cloud<W, Replica>, AllocError>
        requires header { IsHeader header }
        requires empty { W.pushed wire ≡ [] }
        ensures store { IfOk result (λ cloud. cloud.store ≡ opening header) }
        ensures events { IfOk result (λ cloud. cloud.events ≡ 0) }
    {
        let replicas = opening_replicas(alloc, header.replicas, header.keys.len() as u16)?;
        Cloud::make_with(alloc, header, wire, replicas)
    }
}

impl<W: Wire + Drop, T: Taker + Drop> Cloud<W, T> {
    /// The store that a header opens, over these replicas, one for each number.
    pub fn make_with(
        alloc: Global,
        header: Header,
        wire: W,
        replicas: Vec<T>,
    ) -> Result<Cloud<W, T>, AllocError>
        requires header { IsHeader header }
        requires empty { W.pushed wire ≡ [] }
        requires states { map T.state replicas.items ≡ map (λ number. opening_state number (length header.keys)) (range_with_len 0 header.replicas) }
        ensures store { IfOk result (λ cloud. cloud.store ≡ opening header) }
        ensures journals { IfOk result (λ cloud. cloud.journals ≡ map (λ t. record { faults = T.faults t; shut = T.shut t; calm = T.calm t; size = T.size t }) replicas.items) }
        ensures events { IfOk result (λ cloud. cloud.events ≡ 0) }
    {
        let proxies = opening_proxies(alloc, &header)?;
        let keys = key_sets(alloc, header.keys.as_slice())?;
        let seats = seats_of(alloc, replicas)?;
        let Header { sets, .. } = header;
        Ok(Cloud {
            replicas: seats,
            proxies,
            directory: Directory::make(alloc, keys, sets.into_vec())?,
            wire,
            events: 0,
        })
    }
}

impl<W: Wire, T: Taker> Cloud<W, T> {
    /// Puts another taker in a replica's place, which stays stopped if it was: the one that was
    /// there. It takes no memory.
    pub fn swap(&mut self, replica: u8, taker: T) -> T
        requires there { replica < length self.old.store.replicas }
        requires keys { length (T.state taker).kept ≡ length self.old.store.directory.sets }
        ensures store { self.new.store ≡ with_replica self.old.store replica (record { stopped = (replica_at self.old.store replica).stopped; state = T.state taker }) }
        ensures journals { self.new.journals ≡ slice_set self.old.journals replica (record { faults = T.faults taker; shut = T.shut taker; calm = T.calm taker; size = T.size taker }) }
        ensures events { self.new.events ≡ self.old.events }
        ensures state { T.state result ≡ (replica_at self.old.store replica).state }
        ensures journal { record { faults = T.faults result; shut = T.shut result; calm = T.calm result; size = T.size result } ≡ slice_index_or self.old.journals replica no_journal }
    {
        mem::replace(&mut self.replicas[usize::from(replica)].taker, taker)
    }
}

fn opening_replicas(alloc: Global, replicas: u8, keys: u16) -> Result<Vec<Replica>, AllocError>
    requires replicas { replicas ≤ 16 }
    requires keys { keys ≤ 1000 }
    ensures { IfOk result (λ made. made.items ≡ map (λ number. opening_state number keys) (range_with_len 0 replicas)) }
{
    let mut made = Vec::with_capacity(alloc, usize::from(replicas))?;
    for number in 0..replicas {
        made.push(Replica::make(alloc, number, keys)?)?;
    }
    Ok(made)
}

fn opening_proxies(alloc: Global, header: &Header) -> Result<Vec<Proxy>, AllocError>
    requires { IsHeader header.now }
    ensures { IfOk result (λ proxies. proxies.items ≡ map (opening_proxy header.now) header.now.proxies) }
{
    let centres = header.proxies.as_slice();
    let mut proxies = Vec::with_capacity(alloc, centres.len())?;
    for at in centres {
        proxies.push(Proxy::make(alloc, header, *at)?)?;
    }
    Ok(proxies)
}

fn key_sets(alloc: Global, sets: &[SetId]) -> Result<Vec<KeySet>, AllocError>
    ensures { IfOk result (λ keys. keys.items ≡ map key_set sets.now) }
{
    let mut keys = Vec::with_capacity(alloc, sets.len())?;
    for set in sets {
        keys.push(KeySet { set: *set })?;
    }
    Ok(keys)
}

fn seats_of<T: Taker + Drop>(alloc: Global, replicas: Vec<T>) -> Result<Vec<Seat<T>>, AllocError>
    ensures { IfOk result (λ seats. seats.items ≡ map (λ t. record { stopped = false; taker = t }) replicas.items) }
{
    let mut seats = Vec::with_capacity(alloc, replicas.len())?;
    for taker in replicas {
        seats.push(Seat {
            stopped: false,
            taker,
        })?;
    }
    Ok(seats)
}
