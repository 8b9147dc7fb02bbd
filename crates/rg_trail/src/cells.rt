//! The cells as they were told last, and what changed since (docs/embedding.md, "A trail").

use crate::json::{Items, home, number, value};
use rg_base::{ByteList, Label, Memory, Val, Word};
use rg_heap::{Heap, Held};
use std::alloc::Global;

/// What a step may have changed.
#[derive(Clone, Copy, PartialEq, Eq)]
pub enum Extent {
    /// fields of the active region and of temporaries
    Fields,
    /// these, and objects were made, and none went
    Grown,
    /// anything
    All,
}

/// What a slot held when it was told last.
#[derive(Drop)]
struct Known {
    held: Option<Held>,
    fields: Vec<Val>,
}

/// All slots, as they were told last.
#[derive(Drop)]
pub struct Table {
    all: Vec<Known>,
}

/// What changed: cells that are empty or hold another object, objects that came into a cell, objects
/// that belong elsewhere, and fields. An object that moved went from one cell and came into another.
#[derive(Drop)]
pub struct Changes {
    gone: Items,
    made: Items,
    moved: Items,
    put: Items,
}

/// What a word shows: a reference as the serial of its object.
pub fn shown(heap: &Heap, word: Word) -> Val {
    match word {
        Word::Nil => Val::Nil,
        Word::Int(i) => Val::Int(i),
        Word::Bool(b) => Val::Bool(b),
        Word::Slot(slot) => match heap.at(slot) {
            Some(held) => Val::Obj(held.serial),
            None => Val::Nil,
        },
    }
}

/// What is in a field of the cell in a slot, if there is one.
fn field(heap: &Heap, slot: usize, k: usize) -> Option<Val> {
    let held = heap.at(slot)?;
    if k >= held.fields as usize {
        return None;
    }
    let word = heap.element(slot, k)?;
    Some(shown(heap, word))
}

/// Whether a step may write the fields of what belongs there.
fn may_be_written(label: Label, active: u64) -> bool {
    match label {
        Label::Region(n) => n == active,
        Label::Temp(_) => true,
        Label::Frozen => false,
    }
}

impl Changes {
    /// Nothing changed yet.
    pub fn new(alloc: Global) -> Changes {
        Changes {
            gone: Items::new(alloc),
            made: Items::new(alloc),
            moved: Items::new(alloc),
            put: Items::new(alloc),
        }
    }

    // An object came into a slot: its fields are written behind this.
    fn come(&mut self, held: Held, slot: usize) -> Result<(), Memory> {
        let text = self.made.next()?;
        text.push(b'[')?;
        number(text, held.serial)?;
        text.push(b',')?;
        number(text, u64::from(held.class))?;
        text.push(b',')?;
        home(text, held.label)?;
        text.push(b',')?;
        number(text, slot as u64)
    }

    fn belong(&mut self, held: Held) -> Result<(), Memory> {
        let text = self.moved.next()?;
        text.push(b'[')?;
        number(text, held.serial)?;
        text.push(b',')?;
        home(text, held.label)?;
        text.push(b']')
    }

    fn write(&mut self, serial: u64, k: usize, v: Val) -> Result<(), Memory> {
        let text = self.put.next()?;
        text.push(b'[')?;
        number(text, serial)?;
        text.push(b',')?;
        number(text, k as u64)?;
        text.push(b',')?;
        value(text, v)?;
        text.push(b']')
    }

    /// Appends what changed.
    pub fn tell(&self, out: &mut ByteList) -> Result<(), Memory> {
        self.gone.tell_some(b"gone", out)?;
        self.made.tell_some(b"made", out)?;
        self.moved.tell_some(b"moved", out)?;
        self.put.tell_some(b"put", out)
    }
}

impl Known {
    // Whether it is the same object.
    fn is_still(&self, held: Held) -> bool {
        match self.held {
            Some(was) => was.serial == held.serial,
            None => false,
        }
    }

    // The object that was here isn't here any more.
    fn leave(&mut self, changes: &mut Changes) -> Result<(), Memory> {
        if let Some(was) = self.held {
            self.held = None;
            changes.gone.add(was.serial)?;
        }
        Ok(())
    }

    // Another object is here.
    fn take(
        &mut self,
        heap: &Heap,
        slot: usize,
        held: Held,
        changes: &mut Changes,
    ) -> Result<(), Memory> {
        self.held = Some(held);
        self.fields.truncate(0);
        changes.come(held, slot)?;
        for k in 0..held.fields as usize {
            let v = field(heap, slot, k).unwrap_or(Val::Nil);
            if self.fields.push(v).is_err() {
                return Err(Memory);
            }
            changes.made.also(v, k == 0)?;
        }
        changes.made.end(held.fields == 0)
    }

    // The same object is here, and may have other fields.
    fn compare_fields(
        &mut self,
        heap: &Heap,
        slot: usize,
        serial: u64,
        changes: &mut Changes,
    ) -> Result<(), Memory> {
        for k in 0..self.fields.len() {
            let v = field(heap, slot, k).unwrap_or(Val::Nil);
            if let Some(was) = self.fields.get_mut(k) {
                if *was != v {
                    *was = v;
                    changes.write(serial, k, v)?;
                }
            }
        }
        Ok(())
    }

    // The same object is here, and may belong elsewhere.
    fn keep(
        &mut self,
        heap: &Heap,
        slot: usize,
        held: Held,
        active: u64,
        changes: &mut Changes,
    ) -> Result<(), Memory> {
        if let Some(was) = self.held {
            if was.label != held.label {
                self.held = Some(held);
                changes.belong(held)?;
            }
        }
        if !may_be_written(held.label, active) {
            return Ok(());
        }
        self.compare_fields(heap, slot, held.serial, changes)
    }

    // Whether a step may have changed what is here.
    fn may_have_changed(&self, active: u64, extent: Extent) -> bool {
        if extent == Extent::All {
            return true;
        }
        match self.held {
            Some(was) => may_be_written(was.label, active),
            None => extent == Extent::Grown,
        }
    }

    fn compare(
        &mut self,
        heap: &Heap,
        slot: usize,
        active: u64,
        changes: &mut Changes,
    ) -> Result<(), Memory> {
        let Some(held) = heap.at(slot) else {
            return self.leave(changes);
        };
        if self.is_still(held) {
            return self.keep(heap, slot, held, active, changes);
        }
        self.leave(changes)?;
        self.take(heap, slot, held, changes)
    }
}

impl Table {
    /// Nothing was told yet.
    pub fn new(alloc: Global) -> Table {
        Table {
            all: Vec::new(alloc),
        }
    }

    // There are so many slots at least.
    fn grow(&mut self, alloc: Global, slots: usize) -> Result<(), Memory> {
        for _ in self.all.len()..slots {
            let known = Known {
                held: None,
                fields: Vec::new(alloc),
            };
            if self.all.push(known).is_err() {
                return Err(Memory);
            }
        }
        Ok(())
    }

    /// Compares the slots that such a step may have changed with what was told last.
    pub fn compare(
        &mut self,
        alloc: Global,
        heap: &Heap,
        active: u64,
        extent: Extent,
    ) -> Result<Changes, Memory> {
        let mut changes = Changes::new(alloc);
        self.grow(alloc, heap.numbers().high as usize)?;
        for slot in 0..self.all.len() {
            if let Some(known) = self.all.get_mut(slot) {
                if known.may_have_changed(active, extent) {
                    known.compare(heap, slot, active, &mut changes)?;
                }
            }
        }
        Ok(changes)
    }
}
