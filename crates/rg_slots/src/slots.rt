//! What all cowns have (docs/architecture.md, "Worlds").

ghost use Rattle.std.specs.Prelude.{◌≡◌, ◌<◌, All, IfOk, OnOk, Some, length, map, slice_get};
ghost use Rattle.std.specs.Prelude.{unwrap_or};
ghost use Rattle.rg_sched_atomic.specs.Contents.{Away as away, contents_at, put};
ghost use Rattle.rg_sched_atomic.specs.Numbers.{Distinct};
ghost use Rattle.rg_slots.specs.Slots.{content_in, content_seen};

use crate::slot::{Content, Slot};
use rg_base::Memory;
use std::alloc::Global;
use std::marker::Model;
use std::mem;

/// What all cowns have, in the order of their numbers.
#[derive(Drop)]
pub struct Slots {
    slots: Vec<Slot>,
}

impl Model for Slots {
    ghost use Rattle.std.specs.Prelude.{List, map};
    ghost use Rattle.rg_sched_atomic.specs.Contents.{Content};
    ghost use Rattle.rg_slots.specs.Slots.{content_in};

    ghost Value = { List Content };

    ghost view = { λ s. map content_in s.slots.items };
}

impl Slots {
    /// These.
    pub(crate) fn new(slots: Vec<Slot>) -> Slots
        ensures { result ≡ map content_in slots.items }
    {
        Slots { slots }
    }

    /// What the cown of a number has.
    pub fn get(&self, n: u32) -> Content<'_>
        requires { n < length self.now }
        ensures { slice_get self.now n ≡ Some (content_seen result) }
    {
        self.slots[n as usize].content()
    }

    /// Takes what these cowns have, in order; behind it their contents are away.
    pub fn take(&mut self, alloc: Global, cowns: &[u32]) -> Result<Vec<Slot>, Memory>
        requires below { All (λ n. n < length self.old) cowns.now }
        requires distinct { Distinct cowns.now }
        ensures taken { IfOk result (λ taken. map content_in taken.items
            ≡ contents_at self.old cowns.now) }
        ensures away { OnOk result (self.new ≡ put cowns.now (map (λ n. away) cowns.now) self.old) }
    {
        let mut taken = Vec::new(alloc);
        for n in cowns {
            let slot = mem::replace(&mut self.slots[*n as usize], Slot::Away);
            let Ok(()) = taken.push(slot) else {
                return Err(Memory);
            };
        }
        Ok(taken)
    }

    /// Puts contents at these cowns, in order; those for which there is none are empty.
    pub fn put(&mut self, cowns: &[u32], contents: Vec<Slot>)
        requires { All (λ n. n < length self.old) cowns.now }
        ensures { self.new ≡ put cowns.now (map content_in contents.items) self.old }
    {
        let mut rest = contents.into_iter();
        for n in cowns {
            let slot = slot_or_empty(rest.next());
            self.slots[*n as usize] = slot;
        }
    }
}

// What is put at a cown, if it is there.
fn slot_or_empty(slot: Option<Slot>) -> Slot
    ensures { result ≡ unwrap_or slot Slot.Empty }
{
    match slot {
        Some(slot) => slot,
        None => Slot::Empty,
    }
}
