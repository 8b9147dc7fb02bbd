//! The table of cells (docs/architecture.md, "Cells").

ghost use Rattle.std.specs.Prelude.{◌≡◌, ◌+◌, ◌-◌, ◌^◌, ◌<◌, ◌≤◌, [], Some, true, false};
ghost use Rattle.std.specs.Prelude.{IfSome, IfNone, IfOk, OnOk, OnErr, length, option_map};
ghost use Rattle.std.specs.Prelude.{slice_set};
ghost use Rattle.rg_cells.specs.declared.cell.Body.{Body as BodyOf};
ghost use Rattle.rg_cells.specs.Table.{body_at, field_at, label_at, IsHeld, mark_at, link_at};
ghost use Rattle.rg_cells.specs.Table.{width};
ghost use Rattle.rg_cells.specs.Table.{with_field, with_label, freed_from, cancelled, HasSerial};
ghost use Rattle.rg_cells.specs.Table.{exchanged, IsListed};
ghost use Rattle.rg_cells.specs.Table.{LacksSerial, Serials};
ghost use Rattle.rg_cells.specs.Table.{Made, Takes, IsNewest, held_count, frozen_count};
ghost use Rattle.rg_cells.specs.Table.{one_frozen_by};
ghost use Rattle.rg_cells.specs.Table.{field_total, high_of, high_after};
ghost use Rattle.rg_cells.specs.Replacing.{ReplacesPlain};

use crate::places::Places;
use rg_base::{Label, Memory, Steps, Word};
use std::alloc::Global;
use std::marker::Model;
use std::sync::ledger::Ledger;

/// Cells under slots. A freed cell's place stays, and is taken again before a new one is made.
pub struct Cells {
    alloc: Global,
    places: Places,
    frozen: u64,
    words: u64,
}

impl Model for Cells {
    ghost use Rattle.rg_cells.specs.Table.{Table, Serials};
    ghost use Rattle.rg_cells.specs.Inner.Counts.{Counts};

    ghost Value = { Table };

    ghost view = { λ s. s.places };

    ghost invariant = { λ s. Counts s.places.heap s.frozen s.words × Serials s.places.heap };
}

/// Written out, so that no crate above proves how each cell is dropped.
impl Drop for Cells {
    fn drop(self) {
        let Cells {
            alloc: _,
            places: _,
            frozen: _,
            words: _,
        } = self;
    }
}

impl Cells {
    /// No cell yet.
    pub fn new(alloc: Global) -> Cells
        ensures slots { result.heap.slots ≡ [] }
        ensures next { result.heap.next ≡ 0 }
        ensures marks { result.marks ≡ [] }
        ensures links { result.links ≡ [] }
    {
        Cells {
            alloc,
            places: Places::new(alloc),
            frozen: 0,
            words: 0,
        }
    }

    /// The class of a held cell.
    #[inline]
    pub fn class(&self, slot: usize) -> u32
        requires { IsHeld self.now.heap slot }
        ensures { option_map (λ (b : BodyOf). b.class) (body_at self.now.heap slot) ≡ Some result }
    {
        self.places.cell(slot).class
    }

    /// To what a held cell belongs.
    #[inline]
    pub fn label(&self, slot: usize) -> Label
        requires { IsHeld self.now.heap slot }
        ensures { label_at self.now.heap slot ≡ Some result }
    {
        self.places.cell(slot).label()
    }

    /// The serial of a held cell.
    #[inline]
    pub fn serial(&self, slot: usize) -> u64
        requires { IsHeld self.now.heap slot }
        ensures { option_map (λ (b : BodyOf). b.serial) (body_at self.now.heap slot) ≡ Some result }
    {
        self.places.cell(slot).serial
    }

    /// The number of fields of a held cell.
    #[inline]
    pub fn field_count(&self, slot: usize) -> u32
        requires { IsHeld self.now.heap slot }
        ensures { result ≡ width (body_at self.now.heap slot) }
    {
        self.places.field_count(slot)
    }

    /// A field of a held cell.
    #[inline]
    pub fn field(&self, slot: usize, k: u32) -> Word
        requires { k < width (body_at self.now.heap slot) }
        ensures { field_at self.now.heap slot k ≡ Some result }
    {
        self.places.field(slot, k)
    }

    /// A field of a held cell, if there are so many.
    #[inline(always)]
    pub fn element(&self, slot: usize, index: usize) -> Option<Word>
        requires { IsHeld self.now.heap slot }
        ensures { result ≡ field_at self.now.heap slot index }
    {
        self.places.element(slot, index)
    }

    /// Reads a field, which is one step.
    #[inline]
    pub fn look<L: Ledger>(&self, slot: usize, k: u32, steps: &mut Steps<L>) -> Word
        requires { k < width (body_at self.now.heap slot) }
        ensures value { field_at self.now.heap slot k ≡ Some result }
        ensures cost { steps.new ≡ steps.old + 1 }
    {
        steps.tick();
        self.field(slot, k)
    }

    /// The link of a held cell.
    #[inline]
    pub fn link(&self, slot: usize) -> Option<usize>
        requires { IsHeld self.now.heap slot }
        ensures { result ≡ link_at self.now slot }
    {
        self.places.cell(slot).link()
    }

    /// The mark of a held cell.
    #[inline]
    pub fn mark(&self, slot: usize) -> u64
        requires { IsHeld self.now.heap slot }
        ensures { result ≡ mark_at self.now slot }
    {
        self.places.cell(slot).mark
    }

    /// Sets the mark of a held cell.
    #[inline]
    pub fn set_mark(&mut self, slot: usize, m: u64)
        requires { IsHeld self.old.heap slot }
        ensures set { self.new ≡ record self.old { marks = slice_set self.old.marks slot m } }
        ensures within { slot < length self.old.marks }
    {
        self.places.put_mark(slot, m);
    }

    /// Sets the link of a held cell.
    #[inline]
    pub fn set_link(&mut self, slot: usize, next: Option<usize>)
        requires { IsHeld self.old.heap slot }
        ensures set { self.new ≡ record self.old { links = slice_set self.old.links slot next } }
        ensures within { slot < length self.old.links }
    {
        self.places.put_link(slot, next);
    }

    /// Writes a field of a held cell.
    #[inline]
    pub fn set_field(&mut self, slot: usize, k: u32, w: Word)
        requires { k < width (body_at self.old.heap slot) }
        ensures { self.new ≡ record self.old { heap = with_field self.old.heap slot k w } }
    {
        self.places.put_field(slot, k, w);
    }

    /// A field of a held cell that stands beside the cells, if it is there.
    #[inline(always)]
    pub fn beside(&self, slot: usize, index: usize) -> Option<Word>
        requires { IsHeld self.now.heap slot }
        ensures { IfSome result (λ w. field_at self.now.heap slot index ≡ Some w) }
    {
        self.places.element_beside(slot, index)
    }

    /// Writes a field of a held cell where that is quick: there are so many and it led nowhere.
    /// Answers whether it did.
    #[inline(always)]
    pub fn replace_plain(&mut self, slot: usize, index: usize, w: Word) -> bool
        requires { IsHeld self.old.heap slot }
        ensures { ReplacesPlain result self.old self.new slot index w }
    {
        self.places.replace_plain(slot, index, w)
    }

    /// Writes a field of a held cell, if there are so many; answers whether there are.
    #[inline]
    pub fn put_element(&mut self, slot: usize, index: usize, w: Word) -> bool
        requires { IsHeld self.old.heap slot }
        ensures put { result ≡ true → (index < width (body_at self.old.heap slot))
            × (self.new ≡ record self.old { heap = with_field self.old.heap slot index w }) }
        ensures lacks { result ≡ false → (width (body_at self.old.heap slot) ≤ index)
            × (self.new ≡ self.old) }
    {
        if index >= self.field_count(slot) as usize {
            return false;
        }
        self.set_field(slot, index as u32, w);
        true
    }

    /// Gives a held cell another label.
    pub fn relabel(&mut self, slot: usize, label: Label)
        requires { IsHeld self.old.heap slot }
        ensures { self.new ≡ record self.old { heap = with_label self.old.heap slot label } }
    {
        let was = one_if_frozen(self.places.cell(slot).label());
        self.places.put_label(slot, label);
        // as many can be counted
        let _ = self.places.held();
        self.frozen = self.frozen - was + one_if_frozen(label);
    }

    /// The cells at two held slots change places, whole.
    pub fn exchange(&mut self, a: usize, b: usize)
        requires first { IsHeld self.old.heap a }
        requires second { IsHeld self.old.heap b }
        ensures exchanged { self.new ≡ exchanged self.old a b }
        ensures within { IsListed self.old a × IsListed self.old b }
    {
        self.places.exchange(a, b);
    }

    /// Holds a new cell, in a slot that was held before where one is free.
    #[inline(always)]
    pub fn make(&mut self, class: u32, label: Label, fields: &[Word]) -> Result<usize, Memory>
        ensures takes { IfOk result (λ slot. Takes self.old.heap slot) }
        ensures made { IfOk result (λ slot. Made self.old self.new slot (record {
          class = class;
          label = label;
          serial = self.old.heap.next;
          fields = fields.now;
        })) }
        ensures next { OnOk result (self.new.heap.next ≡ self.old.heap.next + 1) }
        ensures high { OnOk result (high_of self.new.heap ≡ high_after self.old.heap) }
        ensures serials { OnOk result (self.new.heap.next < 2 ^ 64 - 1) }
        ensures fields { OnOk result (field_total self.new.heap < 2 ^ 64 - 1) }
        ensures err { OnErr result (self.new ≡ self.old) }
    {
        if self.places.next() >= u64::MAX - 1 {
            return Err(Memory);
        }
        let more = fields.len() as u64;
        if more >= u64::MAX - self.words {
            return Err(Memory);
        }
        let slot = self.places.hold(self.alloc, class, label, fields)?;
        // as many can be counted
        let _ = self.places.held();
        self.words += more;
        self.frozen += one_if_frozen(label);
        Ok(slot)
    }

    /// Frees a held cell; its place is taken again.
    pub fn free(&mut self, slot: usize)
        requires { IsHeld self.old.heap slot }
        ensures { self.new ≡ freed_from self.old slot }
    {
        let was = one_if_frozen(self.places.cell(slot).label());
        let less = u64::from(self.places.field_count(slot));
        self.places.give_up(slot);
        self.frozen -= was;
        self.words -= less;
    }

    /// Takes back the cell that was made last; its serial is the next one again.
    pub fn cancel(&mut self, slot: usize)
        requires { IsNewest self.old.heap slot }
        ensures { self.new ≡ cancelled self.old slot }
    {
        // no other cell has that serial
        let _ = self.made();
        self.free(slot);
        self.places.step_back();
    }

    /// Whether a slot holds a cell.
    pub fn is_held(&self, slot: usize) -> bool
        ensures yes { result ≡ true → IsHeld self.now.heap slot }
        ensures no { IsHeld self.now.heap slot → result ≡ true }
    {
        self.places.is_held(slot)
    }

    /// The slot of the held cell with a serial.
    pub fn find(&self, serial: u64) -> Option<usize>
        ensures some { IfSome result (λ slot. HasSerial self.now.heap slot serial) }
        ensures none { IfNone result (LacksSerial self.now.heap serial) }
    {
        self.places.find(serial)
    }

    /// The number of different slots that were ever held.
    pub fn high(&self) -> usize
        ensures { result ≡ high_of self.now.heap }
    {
        self.places.len()
    }

    /// The number of held cells.
    pub fn held(&self) -> u64
        ensures { result ≡ held_count self.now.heap }
    {
        self.places.held() as u64
    }

    /// The number of frozen cells.
    pub fn frozen(&self) -> u64
        ensures { result ≡ frozen_count self.now.heap }
    {
        self.frozen
    }

    /// The number of fields of all held cells.
    pub fn fields(&self) -> u64
        ensures value { result ≡ field_total self.now.heap }
        ensures few { field_total self.now.heap < 2 ^ 64 - 1 }
    {
        self.words
    }

    /// The next serial, which is above those of all held cells.
    #[inline]
    pub fn made(&self) -> u64
        ensures value { result ≡ self.now.heap.next }
        ensures serials { Serials self.now.heap }
    {
        self.places.next()
    }
}

// One for a frozen cell.
fn one_if_frozen(label: Label) -> u64
    ensures { result ≡ one_frozen_by label }
{
    match label {
        Label::Region(_) | Label::Temp(_) => 0,
        Label::Frozen => 1,
    }
}
