//! The places of the cells (docs/architecture.md, "Cells").

ghost use Rattle.std.specs.Prelude.{◌≡◌, ◌+◌, ◌-◌, ◌^◌, ◌<◌, ◌∷◌, ◌++◌, [], ℕ, Some, true, false};
ghost use Rattle.std.specs.Prelude.{IfSome, IfNone, IfOk, OnOk, OnErr, length, option_map};
ghost use Rattle.std.specs.Prelude.{slice_set};
ghost use Rattle.rg_cells.specs.declared.cell.Body.{Body as BodyOf};
ghost use Rattle.rg_cells.specs.Table.{body_at, field_at, label_at, IsHeld, mark_at, link_at};
ghost use Rattle.rg_cells.specs.Table.{width, with_field, with_label, freed_from, HasSerial};
ghost use Rattle.rg_cells.specs.Table.{exchanged, IsListed, LacksSerial, Made, Takes};
ghost use Rattle.rg_cells.specs.Replacing.{ReplacesPlain};
ghost use Rattle.rg_cells.specs.Table.{held_count, high_of, high_after};
ghost use Rattle.rg_cells.specs.Inner.Layout.{is_free, index_in, label_in};
ghost use Rattle.rg_cells.specs.Inner.Places.{link_of, owned, table_of};
ghost use Rattle.rg_cells.specs.Inner.Places.{FreeList, Owned, OwnedBut, Taken};
ghost use Rattle.rg_cells.specs.Inner.Places.{ServesSerial, ServesNone};

use crate::cell::{Beside, Cell, far, few};
use crate::fields::Fields;
use rg_base::{Label, Memory, Word};
use std::alloc::Global;
use std::marker::Model;

/// How many fields stand in the cell itself. A cell with more has them in a list beside the cells.
const FEW: usize = 3;

/// Places, each of which holds a cell or is free. A free one names the one that is free next.
pub struct Places {
    cells: Vec<Cell>,
    beside: Vec<Beside>,
    // the free place that is taken next, and how many are free
    free: usize,
    vacant: usize,
    // the next serial
    next: u64,
}

impl Model for Places {
    ghost use Rattle.rg_cells.specs.Table.{Table};
    ghost use Rattle.rg_cells.specs.Inner.Places.{table_of, FreeList, Owned};

    ghost Value = { Table };

    ghost view = { λ s. table_of s.cells.items s.beside.items s.next };

    ghost invariant = { λ s. FreeList s.cells.items s.free s.vacant
        × Owned s.cells.items s.beside.items };
}

/// Written out, so that no crate above proves how each cell is dropped.
impl Drop for Places {
    fn drop(self) {
        let Places {
            cells: _,
            beside: _,
            free: _,
            vacant: _,
            next: _,
        } = self;
    }
}

impl Places {
    /// No place yet.
    pub fn new(alloc: Global) -> Places
        ensures slots { result.heap.slots ≡ [] }
        ensures next { result.heap.next ≡ 0 }
        ensures marks { result.marks ≡ [] }
        ensures links { result.links ≡ [] }
    {
        Places {
            cells: Vec::new(alloc),
            beside: Vec::new(alloc),
            free: 0,
            vacant: 0,
            next: 0,
        }
    }

    /// The number of places.
    #[inline]
    pub fn len(&self) -> usize
        ensures { result ≡ high_of self.now.heap }
    {
        self.cells.len()
    }

    /// The number of held cells.
    #[inline]
    pub fn held(&self) -> usize
        ensures { result ≡ held_count self.now.heap }
    {
        self.cells.len() - self.vacant
    }

    /// The next serial.
    #[inline]
    pub fn next(&self) -> u64
        ensures { result ≡ self.now.heap.next }
    {
        self.next
    }

    /// The next serial is the one before it.
    pub fn step_back(&mut self)
        requires { 0 < self.old.heap.next }
        ensures { self.new ≡ record self.old {
          heap = record self.old.heap { next = self.old.heap.next - 1 };
        } }
    {
        self.next -= 1;
    }

    /// A held cell.
    #[inline(always)]
    pub fn cell(&self, slot: usize) -> &Cell
        requires { IsHeld self.now.heap slot }
        ensures class { option_map (λ (b : BodyOf). b.class) (body_at self.now.heap slot)
            ≡ Some result.now.class }
        ensures label { label_at self.now.heap slot
            ≡ Some (label_in result.now.state result.now.number) }
        ensures serial { option_map (λ (b : BodyOf). b.serial) (body_at self.now.heap slot)
            ≡ Some result.now.serial }
        ensures mark { mark_at self.now slot ≡ result.now.mark }
        ensures link { link_at self.now slot ≡ link_of result.now }
    {
        &self.cells[slot]
    }

    /// The number of fields of a held cell.
    #[inline(always)]
    pub fn field_count(&self, slot: usize) -> u32
        requires { IsHeld self.now.heap slot }
        ensures { result ≡ width (body_at self.now.heap slot) }
    {
        let cell = &self.cells[slot];
        let Some(at) = cell.beside() else {
            return cell.few();
        };
        self.beside[at].fields.len()
    }

    /// A field of a held cell.
    #[inline(always)]
    pub fn field(&self, slot: usize, k: u32) -> Word
        requires { k < width (body_at self.now.heap slot) }
        ensures { field_at self.now.heap slot k ≡ Some result }
    {
        let cell = &self.cells[slot];
        let Some(at) = cell.beside() else {
            return cell.get(k);
        };
        self.beside[at].fields.get(k)
    }

    /// A field of a held cell, if there are so many.
    #[inline(always)]
    pub fn element(&self, slot: usize, index: usize) -> Option<Word>
        requires { IsHeld self.now.heap slot }
        ensures { result ≡ field_at self.now.heap slot index }
    {
        let cell = &self.cells[slot];
        let Some(at) = cell.beside() else {
            return cell.element(index);
        };
        self.beside[at].fields.element(index)
    }

    /// A field of a held cell that stands beside the cells, if it is there.
    #[inline(always)]
    pub fn element_beside(&self, slot: usize, index: usize) -> Option<Word>
        requires { IsHeld self.now.heap slot }
        ensures { IfSome result (λ w. field_at self.now.heap slot index ≡ Some w) }
    {
        let cell = &self.cells[slot];
        let Some(at) = cell.beside() else {
            return None;
        };
        self.beside[at].fields.element(index)
    }

    /// Writes a field of a held cell, if it stands beside, there are so many and it led nowhere;
    /// answers whether it did.
    #[inline(always)]
    pub fn replace_plain(&mut self, slot: usize, index: usize, w: Word) -> bool
        requires { IsHeld self.old.heap slot }
        ensures { ReplacesPlain result self.old self.new slot index w }
    {
        let Some(at) = self.cells[slot].beside() else {
            return false;
        };
        self.beside[at].fields.replace_plain(index, w)
    }

    /// Writes a field of a held cell.
    #[inline(always)]
    pub fn put_field(&mut self, slot: usize, k: u32, w: Word)
        requires { k < width (body_at self.old.heap slot) }
        ensures { self.new ≡ record self.old { heap = with_field self.old.heap slot k w } }
    {
        let Some(at) = self.cells[slot].beside() else {
            self.cells[slot].put(k, w);
            return;
        };
        self.beside[at].fields.set(k, w);
    }

    /// Writes the mark of a held cell.
    #[inline(always)]
    pub fn put_mark(&mut self, slot: usize, m: u64)
        requires { IsHeld self.old.heap slot }
        ensures set { self.new ≡ record self.old { marks = slice_set self.old.marks slot m } }
        ensures within { slot < length self.old.marks }
    {
        self.cells[slot].mark = m;
    }

    /// Writes the link of a held cell.
    #[inline(always)]
    pub fn put_link(&mut self, slot: usize, next: Option<usize>)
        requires { IsHeld self.old.heap slot }
        ensures set { self.new ≡ record self.old { links = slice_set self.old.links slot next } }
        ensures within { slot < length self.old.links }
    {
        self.cells[slot].set_link(next);
    }

    /// Writes the label of a held cell.
    #[inline(always)]
    pub fn put_label(&mut self, slot: usize, label: Label)
        requires { IsHeld self.old.heap slot }
        ensures { self.new ≡ record self.old { heap = with_label self.old.heap slot label } }
    {
        self.cells[slot].set_label(label);
    }

    /// The cells at two held slots change places, whole.
    pub fn exchange(&mut self, a: usize, b: usize)
        requires first { IsHeld self.old.heap a }
        requires second { IsHeld self.old.heap b }
        ensures exchanged { self.new ≡ exchanged self.old a b }
        ensures within { IsListed self.old a × IsListed self.old b }
    {
        let first = self.cells[a];
        let second = self.cells[b];
        if a == b {
            return;
        }
        own(&mut self.beside, first, b);
        own(&mut self.beside, second, a);
        self.cells[a] = second;
        self.cells[b] = first;
    }

    /// Holds a new cell, in a place that was held before where one is free.
    #[inline(always)]
    pub fn hold(
        &mut self,
        alloc: Global,
        class: u32,
        label: Label,
        fields: &[Word],
    ) -> Result<usize, Memory>
        requires { self.old.heap.next < 2 ^ 64 - 1 }
        ensures takes { IfOk result (λ slot. Takes self.old.heap slot) }
        ensures made { IfOk result (λ slot. Made self.old self.new slot (record {
          class = class;
          label = label;
          serial = self.old.heap.next;
          fields = fields.now;
        })) }
        ensures next { OnOk result (self.new.heap.next ≡ self.old.heap.next + 1) }
        ensures high { OnOk result (high_of self.new.heap ≡ high_after self.old.heap) }
        ensures err { OnErr result (self.new ≡ self.old) }
    {
        if fields.len() > FEW {
            return self.hold_beside(alloc, class, label, fields);
        }
        let (kinds, words) = few(fields);
        let cell = Cell::new(class, label, self.next, kinds, words);
        let slot = take(&mut self.cells, &mut self.free, &mut self.vacant, cell)?;
        self.next += 1;
        Ok(slot)
    }

    // Holds a new cell whose fields stand beside.
    #[inline(never)]
    fn hold_beside(
        &mut self,
        alloc: Global,
        class: u32,
        label: Label,
        fields: &[Word],
    ) -> Result<usize, Memory>
        requires { self.old.heap.next < 2 ^ 64 - 1 }
        ensures takes { IfOk result (λ slot. Takes self.old.heap slot) }
        ensures made { IfOk result (λ slot. Made self.old self.new slot (record {
          class = class;
          label = label;
          serial = self.old.heap.next;
          fields = fields.now;
        })) }
        ensures next { OnOk result (self.new.heap.next ≡ self.old.heap.next + 1) }
        ensures high { OnOk result (high_of self.new.heap ≡ high_after self.old.heap) }
        ensures err { OnErr result (self.new ≡ self.old) }
    {
        let fields = Fields::of(alloc, fields)?;
        let Ok(()) = self.beside.reserve(1) else {
            return Err(Memory);
        };
        let (kinds, words) = far(self.beside.len());
        let cell = Cell::new(class, label, self.next, kinds, words);
        let slot = take(&mut self.cells, &mut self.free, &mut self.vacant, cell)?;
        self.beside.push_reserved(Beside {
            owner: slot,
            fields,
        });
        self.next += 1;
        Ok(slot)
    }

    /// Gives a held cell up.
    #[inline]
    pub fn give_up(&mut self, slot: usize)
        requires { IsHeld self.old.heap slot }
        ensures { self.new ≡ freed_from self.old slot }
    {
        let beside = self.cells[slot].beside();
        self.cells[slot].clear(self.free);
        self.free = slot;
        self.vacant += 1;
        let Some(at) = beside else {
            return;
        };
        drop_list(&mut self.cells, &mut self.beside, at);
    }

    /// Whether a slot holds a cell.
    pub fn is_held(&self, slot: usize) -> bool
        ensures yes { result ≡ true → IsHeld self.now.heap slot }
        ensures no { IsHeld self.now.heap slot → result ≡ true }
    {
        match self.cells.get(slot) {
            Some(cell) => cell.is_held(),
            None => false,
        }
    }

    /// The slot of the held cell with a serial.
    pub fn find(&self, serial: u64) -> Option<usize>
        ensures some { IfSome result (λ slot. HasSerial self.now.heap slot serial) }
        ensures none { IfNone result (LacksSerial self.now.heap serial) }
    {
        find(&self.cells, serial)
    }
}

// The slot of the held cell with a serial.
fn find(cells: &[Cell], serial: u64) -> Option<usize>
    ensures some { IfSome result (λ slot. ServesSerial cells.now slot serial) }
    ensures none { IfNone result (ServesNone cells.now serial) }
{
    for slot in 0..cells.len() {
        let cell = &cells[slot];
        if cell.is_held() {
            if cell.serial == serial {
                return Some(slot);
            }
        }
    }
    None
}

// Takes a place for a cell: a free one, or a new one where none is free.
#[inline(always)]
fn take(
    cells: &mut Vec<Cell>,
    free: &mut usize,
    vacant: &mut usize,
    cell: Cell,
) -> Result<usize, Memory>
    requires list { FreeList cells.old.items free.old vacant.old }
    requires held { is_free cell.state ≡ false }
    ensures list { FreeList cells.new.items free.new vacant.new }
    ensures ok { IfOk result (λ slot. Taken cells.old.items cells.new.items vacant.old slot cell) }
    ensures err { OnErr result (cells.new.items ≡ cells.old.items) }
{
    if *vacant == 0 {
        return add(cells, cell);
    }
    let slot = *free;
    *free = cells[slot].number as usize;
    *vacant -= 1;
    cells[slot] = cell;
    Ok(slot)
}

// Adds a place for a cell.
#[inline(never)]
fn add(cells: &mut Vec<Cell>, cell: Cell) -> Result<usize, Memory>
    ensures ok { IfOk result (λ slot. (slot ≡ length cells.old.items)
        × (cells.new.items ≡ cells.old.items ++ cell ∷ [])) }
    ensures err { OnErr result (cells.new.items ≡ cells.old.items) }
{
    let slot = cells.len();
    match cells.push(cell) {
        Ok(()) => Ok(slot),
        Err(_) => Err(Memory),
    }
}

// The list beside the cells that a cell has, if it has one, belongs to a slot.
fn own(beside: &mut Vec<Beside>, cell: Cell, slot: usize)
    ensures { beside.new.items ≡ owned beside.old.items
        (index_in cell.kinds cell.words) slot }
{
    let Some(at) = cell.beside() else {
        return;
    };
    if at < beside.len() {
        beside[at].owner = slot;
    }
}

// Takes away a list beside the cells; the last one takes its place.
#[inline(never)]
fn drop_list(cells: &mut Vec<Cell>, beside: &mut Vec<Beside>, at: usize)
    requires owned { OwnedBut cells.old.items beside.old.items at }
    requires at { at < length beside.old.items }
    ensures owned { Owned cells.new.items beside.new.items }
    ensures shown { (n : ℕ) → table_of cells.new.items beside.new.items n
        ≡ table_of cells.old.items beside.old.items n }
    ensures free { (f v : ℕ) → FreeList cells.old.items f v → FreeList cells.new.items f v }
{
    let Some(last) = beside.pop() else {
        unreachable!();
    };
    if at < beside.len() {
        cells[last.owner].set_beside(at);
        beside[at] = last;
    }
}
