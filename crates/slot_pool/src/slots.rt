//! The slots of a pool.
ghost use Rattle.std.specs.Prelude.{◌≡◌, ◌+◌, ◌<◌, ◌≤◌, ◌↔◌, length, replicate, Some, None, IsTrue, IsSome, IfSome, IsErr, IsNone, IfOk, IfErr, option_copied};
ghost use Rattle.std.specs.Option.{option_copied_mut};
ghost use Rattle.std.specs.Borrow.{Lends, sem};
ghost use Rattle.slot_pool.specs.Slots.{new_slot, item_at, IsLive, live_count, handle_at, next_handle, after_put, after_take, with_item, without_item};

use crate::free::FreeSlots;
use crate::handles::{Full, Handle};
use std::alloc::{AllocError, Global};
use std::marker::Model;
use std::mem;

/// Slots for a fixed number of items, each under a handle.
///
/// Contracts see a pool as the list of its slots.
#[derive(Drop)]
pub struct Pool<T> {
    slots: Vec<Slot<T>>,
    free: FreeSlots,
    // How many slots are not empty.
    live: u32,
}

#[derive(Drop)]
struct Slot<T> {
    generation: u32,
    content: Content<T>,
}

#[derive(Drop)]
enum Content<T> {
    Empty,
    Holds(T),
    Retired,
}

impl<T> Model for Pool<T> {
    ghost use Rattle.std.specs.Prelude.{List, map};
    ghost use Rattle.slot_pool.specs.Slots.{Slot as SlotSeen};

    ghost Value = { List (SlotSeen T) };

    ghost use Rattle.slot_pool.specs.Stored.{slot_of, IsSound};

    ghost view = { λ p. map slot_of p.slots.items };

    ghost invariant = { λ p. IsSound p.slots.items p.free p.live };
}

impl<T> Content<T> {
    ghost use Rattle.slot_pool.specs.Stored.{content_of};
    ghost use Rattle.slot_pool.specs.Slots.{item_of};
    ghost use Rattle.slot_pool.specs.contracts.slots.Content.{the_row};

    // The item that stands there.
    fn into_item(self) -> T
        requires { IsSome (item_of (content_of self)) }
        ensures { item_of (content_of self) ≡ Some result }
    {
        match self {
            Content::Holds(item) => item,
            Content::Empty | Content::Retired => unreachable!(),
        }
    }

    // The item that stands there, for writing.
    fn item_mut(&mut self) -> &mut T
        requires { IsSome (item_of (content_of self.old)) }
        ensures* lends { sem 𝓛 (Lends (the_row T.row) T.row self.entry result Content.Holds) }
        ensures value { item_of (content_of self.old) ≡ Some result.now }
    {
        match self {
            Content::Holds(item) => item,
            Content::Empty | Content::Retired => unreachable!(),
        }
    }
}

impl<T> Slot<T> {
    ghost use Rattle.slot_pool.specs.Stored.{slot_of};
    ghost use Rattle.slot_pool.specs.Slots.{item_for, emptied_slot};

    // The slot once its item is taken at this generation.
    fn emptied(generation: u32) -> Slot<T>
        ensures { slot_of result ≡ emptied_slot generation }
    {
        match generation.checked_add(1) {
            Some(next) => Slot {
                generation: next,
                content: Content::Empty,
            },
            None => Slot {
                generation,
                content: Content::Retired,
            },
        }
    }

    // The item for a handle of this generation.
    fn item(&self, generation: u32) -> Option<&T>
        ensures { option_copied result ≡ item_for generation (slot_of self.now) }
    {
        match &self.content {
            Content::Holds(item) if self.generation == generation => Some(item),
            _ => None,
        }
    }
}

impl<T> Pool<T> {
    ghost use Rattle.slot_pool.specs.Lends.{lends_get, lends_item};

    /// A pool of empty slots, whose first generation is 1.
    pub fn make(alloc: Global, capacity: u32) -> Result<Pool<T>, AllocError>
        requires { capacity ≤ 1000000 }
        ensures { IfOk result (λ pool. pool ≡ replicate capacity (new_slot 1)) }
    {
        Pool::make_from(alloc, capacity, 1)
    }

    /// A pool of empty slots, whose first generation is `first`.
    pub fn make_from(alloc: Global, capacity: u32, first: u32) -> Result<Pool<T>, AllocError>
        requires capacity { capacity ≤ 1000000 }
        requires first { 1 ≤ first }
        ensures { IfOk result (λ pool. pool ≡ replicate capacity (new_slot first)) }
    {
        let free = FreeSlots::make(alloc, capacity)?;
        let mut slots = Vec::with_capacity(alloc, capacity as usize)?;
        for _ in 0..capacity {
            slots.push_reserved(Slot {
                generation: first,
                content: Content::Empty,
            });
        }
        Ok(Pool {
            slots,
            free,
            live: 0,
        })
    }

    /// Puts the item into the free slot of the smallest number, or hands it back where none is
    /// free.
    pub fn put(&mut self, item: T) -> Result<Handle, Full<T>>
        ensures full { IsErr result ↔ (live_count self.old ≡ length self.old) }
        ensures handle { IfOk result (λ handle. next_handle self.old ≡ Some handle) }
        ensures returned { IfErr result (λ full. full.item ≡ item) }
        ensures slots { self.new ≡ after_put self.old item }
    {
        let Some(handle) = self.next_handle() else {
            return Err(Full { item });
        };
        self.fill(handle, item);
        Ok(handle)
    }

    // Puts the item under the next handle.
    fn fill(&mut self, handle: Handle, item: T)
        requires { next_handle self.old ≡ Some handle }
        ensures { self.new ≡ with_item self.old handle item }
    {
        let index = handle.slot as usize;
        match mem::replace(&mut self.slots[index].content, Content::Holds(item)) {
            Content::Empty => {}
            Content::Holds(_) | Content::Retired => unreachable!(),
        }
        self.free.fill(handle.slot);
        self.live += 1;
    }

    /// The item under the handle, where the handle is live.
    pub fn get(&self, handle: Handle) -> Option<&T>
        ensures { option_copied result ≡ item_at self.now handle }
    {
        self.slots
            .get(handle.slot as usize)?
            .item(handle.generation)
    }

    /// The handle of the slot of this number where it holds an item: `None` where it is empty,
    /// retired, or not one of the pool.
    pub fn handle_at(&self, slot: u32) -> Option<Handle>
        ensures handle { result ≡ handle_at self.now slot }
        ensures live { IfSome result (λ handle. (handle.slot ≡ slot) × IsLive self.now handle) }
        ensures only { (handle : Handle) → handle.slot ≡ slot → IsLive self.now handle → result ≡ Some handle }
    {
        let generation = self.slots.get(slot as usize)?.generation;
        let handle = Handle { slot, generation };
        let _item = self.get(handle)?;
        Some(handle)
    }

    /// The item under the handle for writing, where the handle is live.
    pub fn get_mut(&mut self, handle: Handle) -> Option<&mut T>
        ensures* writes_back { sem 𝓛 (lends_get T.row self.entry handle result) }
        ensures value { option_copied_mut result ≡ item_at self.old handle }
    {
        if self.get(handle).is_some() {
            Some(self.item_mut(handle))
        } else {
            None
        }
    }

    fn item_mut(&mut self, handle: Handle) -> &mut T
        requires { IsLive self.old handle }
        ensures* writes_back { sem 𝓛 (lends_item T.row self.entry handle result) }
        ensures value { item_at self.old handle ≡ Some result.now }
    {
        self.slots[handle.slot as usize].content.item_mut()
    }

    /// Takes the item under the handle, where the handle is live. Its slot is then empty at the
    /// next generation, or retired where it was at the last one.
    pub fn take(&mut self, handle: Handle) -> Option<T>
        ensures value { result ≡ item_at self.old handle }
        ensures slots { self.new ≡ after_take self.old handle }
    {
        if self.get(handle).is_some() {
            Some(self.empty(handle))
        } else {
            None
        }
    }

    // Takes the item under a live handle.
    fn empty(&mut self, handle: Handle) -> T
        requires { IsLive self.old handle }
        ensures value { item_at self.old handle ≡ Some result }
        ensures slots { self.new ≡ without_item self.old handle }
    {
        let emptied = Slot::emptied(handle.generation);
        let item = mem::replace(&mut self.slots[handle.slot as usize], emptied)
            .content
            .into_item();
        if handle.generation == u32::MAX {
            return item;
        }
        self.free.release(handle.slot);
        self.live -= 1;
        item
    }

    /// How many slots are not free: those with an item, and the retired ones.
    pub fn live(&self) -> u32
        ensures { result ≡ live_count self.now }
    {
        self.live
    }

    /// How many slots there are.
    pub fn capacity(&self) -> u32
        ensures { result ≡ length self.now }
    {
        self.slots.len() as u32
    }

    /// The handle that the next `put` gives, or `None` where no slot is free.
    pub fn next_handle(&self) -> Option<Handle>
        ensures handle { result ≡ next_handle self.now }
        ensures full { IsNone result ↔ (live_count self.now ≡ length self.now) }
    {
        let Some(slot) = self.free.smallest() else {
            return None;
        };
        Some(Handle {
            slot,
            generation: self.slots[slot as usize].generation,
        })
    }
}
