//! The heap: cells and regions (docs/architecture.md, "The heap").

ghost use Rattle.std.specs.Prelude.{◌≡◌, ◌<◌, ℕ, [], true, false, IfOk, OnErr, length, option_map};
ghost use Rattle.std.specs.Prelude.{IfSome, None};
ghost use Rattle.std.specs.Prelude.{Some, Err, ◌⊎◌, ◌≤◌, ◌↔◌, ◌+◌, ◌*◌, ◌^◌, drop, sum_by};
ghost use Rattle.rg_base.specs.declared.object.Label.TheVariants.{Region, Temp};
ghost use Rattle.rg_cells.specs.declared.cell.Body.{Body as BodyOf};
ghost use Rattle.rg_cells.specs.Table.{IsHeld, body_at, field_at, label_at, width, with_field};
ghost use Rattle.rg_cells.specs.Table.{Serials, high_of, high_after};
ghost use Rattle.rg_regions.specs.Reach.{LiesIn};
ghost use Rattle.rg_regions.specs.Table.{IsKey, Added, HasNumber, fresh};
ghost use Rattle.rg_regions.specs.Grove.{Below, Grove};
ghost use Rattle.rg_frames.specs.Changes.{BaseUpTo, Begun, closed, opened, with_temp};
ghost use Rattle.rg_frames.specs.Changes.{without_temps};
ghost use Rattle.rg_heap.specs.Parts.{OnTop};
ghost use Rattle.rg_heap.specs.Changes.{LeadsNowhere, OnActive, Makes, SameCells, SameRecords};
ghost use Rattle.rg_heap.specs.Changes.{Rewritten, OpensOne, as_it_is, with_one};
ghost use Rattle.rg_heap.specs.Writes.{Comes, InActive, LeadsOut, Ownerless, Stays};
ghost use Rattle.rg_heap.specs.Ends.{IsTemp};
ghost use Rattle.rg_heap.specs.Ends.{CanEnter, CanLeave, GoesAlong, IsTopTemp, NoCell};
ghost use Rattle.rg_heap.specs.Ends.{OnRegion, OnSlot, Released, top_temps};
ghost use Rattle.rg_regions.specs.Collection.{AllHeld, TempsLeadToHeld, WordsLeadToHeld};
ghost use Rattle.rg_regions.specs.Collection.{OfRegion, region_fields, roots_of};
ghost use Rattle.rg_heap.specs.Collects.{CollectsBy};
ghost use Rattle.rg_heap.specs.Slides.{SlidesBy};
ghost use Rattle.rg_heap.specs.Moves.{BridgeOrNil, CanMove, Freezes, Merges, NotBeneath};
ghost use Rattle.rg_heap.specs.Answers.{AllLead, end_numbers};
ghost use Rattle.rg_heap.specs.Reads.{CanRead, Reads, Shows, Tells};
ghost use Rattle.rg_heap.specs.Reads.{LeadsIntoClosed};

mod cargo;
mod giving;

use crate::answers::{Active, Collected, Held, Refusal};
use crate::collecting::collect_by;
use crate::ending::{end_temps, release_one};
use crate::making::{make_bridge, make_in};
use crate::reading::{region_of, vals};
use crate::sliding::slide_by;
use crate::writing::{write_element, write_field};
use rg_base::{EndNumbers, Label, Manager, Memory, Place, Seen, Steps, Trap, Word};
use rg_cells::Cells;
use rg_frames::Frames;
use rg_move::{freeze, merge};
use rg_regions::Regions;
use std::alloc::Global;
use std::marker::Model;
use std::sync::ledger::Ledger;

/// Cells and regions. The regions are a forest (`Grove`), between any two calls.
#[derive(Drop)]
pub struct Heap {
    cells: Cells,
    regions: Regions,
}

impl Model for Heap {
    ghost use Rattle.rg_regions.specs.Grove.{Grove};
    ghost use Rattle.rg_heap.specs.Parts.{Parts};

    ghost Value = { Parts };

    ghost view = { λ h. record { cells = h.cells; regions = h.regions } };

    ghost invariant = { λ h. Grove h.cells h.regions };
}

impl Heap {
    /// No cell and no region.
    pub fn new(alloc: Global) -> Heap
        ensures slots { result.cells.heap.slots ≡ [] }
        ensures serials { result.cells.heap.next ≡ 0 }
        ensures records { result.regions.records ≡ [] }
        ensures numbers { result.regions.next ≡ 0 }
    {
        Heap {
            cells: Cells::new(alloc),
            regions: Regions::new(alloc),
        }
    }

    /// Adds region 0, without cells, to a heap that has made no region; answers its key.
    pub fn begin(&mut self, manager: Manager) -> Result<usize, Memory>
        requires { self.old.regions.next ≡ 0 }
        ensures added { IfOk result (λ key.
            Added self.old.regions self.new.regions key (fresh self.old.regions manager)) }
        ensures cells { self.new.cells ≡ self.old.cells }
        ensures err { OnErr result (self.new ≡ self.old) }
    {
        self.regions.add(manager)
    }

    /// What always holds of the regions, and of the serials.
    pub fn is_forest(&self)
        ensures forest { Grove self.now.cells self.now.regions }
        ensures serials { Serials self.now.cells.heap }
    {
        let _ = self.cells.made();
    }

    /// Makes an object in the active region; answers its slot.
    #[inline(always)]
    pub fn make(&mut self, frames: &Frames, class: u32, fields: &[Word]) -> Result<usize, Memory>
        requires window { 0 < length frames.now.windows }
        requires key { OnTop frames.now (λ w. IsKey self.old.regions w.region) }
        requires plain { LeadsNowhere fields.now }
        ensures cell { IfOk result (λ slot. OnActive self.old.regions frames.now (λ key number.
            Makes self.old.cells self.new.cells slot class (Region number) fields.now)) }
        ensures member { IfOk result (λ slot. OnTop frames.now (λ w.
            Rewritten self.old.regions self.new.regions w.region (with_one slot))) }
        ensures cells { OnErr result (self.new.cells ≡ self.old.cells) }
        ensures regions { OnErr result (OnTop frames.now (λ w.
            Rewritten self.old.regions self.new.regions w.region as_it_is)) }
    {
        let key = frames.top().region;
        make_in(&mut self.cells, &mut self.regions, key, class, fields)
    }

    /// Makes a temporary of the top window; answers its slot. Where there is no memory, one slot
    /// more may have been held.
    pub fn make_tmp(
        &mut self,
        frames: &mut Frames,
        class: u32,
        fields: &[Word],
    ) -> Result<usize, Memory>
        requires begun { Begun frames.old }
        requires plain { LeadsNowhere fields.now }
        ensures cell { IfOk result (λ slot. OnTop frames.old (λ w.
            Makes self.old.cells self.new.cells slot class (Temp w.number) fields.now)) }
        ensures temp { IfOk result (λ slot. frames.new ≡ with_temp frames.old slot) }
        ensures cells { OnErr result (SameCells self.old.cells self.new.cells) }
        ensures high { OnErr result ((high_of self.old.cells.heap ≤ high_of self.new.cells.heap)
            × (high_of self.new.cells.heap ≤ high_after self.old.cells.heap)) }
        ensures frames { OnErr result (frames.new ≡ frames.old) }
        ensures regions { self.new.regions ≡ self.old.regions }
    {
        let number = frames.top().number;
        let Ok(slot) = self.cells.make(class, Label::Temp(number), fields) else {
            return Err(Memory);
        };
        let Ok(()) = frames.push_temp(slot) else {
            self.cells.cancel(slot);
            return Err(Memory);
        };
        Ok(slot)
    }

    /// Makes an object with a region of its own, which is closed; answers its slot, the bridge.
    pub fn make_region(
        &mut self,
        class: u32,
        fields: &[Word],
        manager: Manager,
    ) -> Result<usize, Memory>
        requires { LeadsNowhere fields.now }
        ensures cell { IfOk result (λ slot. Makes self.old.cells self.new.cells slot class
            (Region self.old.regions.next) fields.now) }
        ensures region { IfOk result (λ slot.
            OpensOne self.old.regions self.new.regions slot manager) }
        ensures cells { OnErr result (self.new.cells ≡ self.old.cells) }
        ensures regions { OnErr result (SameRecords self.old.regions self.new.regions) }
    {
        make_bridge(&mut self.cells, &mut self.regions, class, fields, manager)
    }

    /// A field of the object that is referred to. `Nil` comes exactly at nil.
    pub fn read(&self, at: Word, k: u32) -> Result<Word, Trap>
        requires { CanRead self.now.cells.heap at k }
        ensures { Reads self.now.cells.heap at k result }
    {
        match at {
            Word::Nil => Err(Trap::Nil),
            Word::Int(_) | Word::Bool(_) => unreachable!(),
            Word::Slot(slot) => Ok(self.cells.field(slot, k)),
        }
    }

    /// Writes a field of a cell of the active region, or of a temporary.
    #[inline(always)]
    pub fn write(&mut self, frames: &Frames, slot: usize, k: u32, w: Word)
        requires window { 0 < length frames.now.windows }
        requires key { OnTop frames.now (λ top. IsKey self.old.regions top.region) }
        requires width { k < width (body_at self.old.cells.heap slot) }
        requires place { InActive self.old.cells.heap self.old.regions frames.now slot
            (λ number. Stays self.old.cells.heap number w) ⊎ IsTemp self.old.cells.heap slot }
        ensures heap { self.new.cells.heap ≡ with_field self.old.cells.heap slot k w }
        ensures regions { self.new.regions ≡ self.old.regions }
    {
        let key = frames.top().region;
        write_field(&mut self.cells, &self.regions, key, slot, k, w);
    }

    /// An element of an array by its index, if it is there.
    #[inline(always)]
    pub fn element(&self, slot: usize, index: usize) -> Option<Word>
        requires { IsHeld self.now.cells.heap slot }
        ensures { result ≡ field_at self.now.cells.heap slot index }
    {
        self.cells.element(slot, index)
    }

    /// Writes an element of an array of the active region, or of a temporary, if it is there;
    /// answers whether it is.
    #[inline(always)]
    pub fn write_element(&mut self, frames: &Frames, slot: usize, index: usize, w: Word) -> bool
        requires window { 0 < length frames.now.windows }
        requires key { OnTop frames.now (λ top. IsKey self.old.regions top.region) }
        requires held { IsHeld self.old.cells.heap slot }
        requires place { index < width (body_at self.old.cells.heap slot) →
            InActive self.old.cells.heap self.old.regions frames.now slot
            (λ number. Stays self.old.cells.heap number w) ⊎ IsTemp self.old.cells.heap slot }
        ensures put { result ≡ true → (index < width (body_at self.old.cells.heap slot))
            × (self.new.cells.heap ≡ with_field self.old.cells.heap slot index w) }
        ensures lacks { result ≡ false → (width (body_at self.old.cells.heap slot) ≤ index)
            × (self.new ≡ self.old) }
        ensures regions { self.new.regions ≡ self.old.regions }
    {
        let key = frames.top().region;
        write_element(&mut self.cells, &self.regions, key, slot, index, w)
    }

    /// An element of an array that stands beside the cells, if it is there.
    #[inline(always)]
    pub fn beside(&self, slot: usize, index: usize) -> Option<Word>
        requires { IsHeld self.now.cells.heap slot }
        ensures { IfSome result (λ w. field_at self.now.cells.heap slot index ≡ Some w) }
    {
        self.cells.beside(slot, index)
    }

    /// Writes one of these that led nowhere, with a word that leads nowhere, if it is there; answers
    /// whether it is.
    #[inline(always)]
    pub fn replace_plain(&mut self, frames: &Frames, slot: usize, index: usize, w: Word) -> bool
        requires window { 0 < length frames.now.windows }
        requires key { OnTop frames.now (λ top. IsKey self.old.regions top.region) }
        requires held { IsHeld self.old.cells.heap slot }
        requires plain { (s : ℕ) → w ≡ Word.Slot s → ⊥ }
        requires place { index < width (body_at self.old.cells.heap slot) →
            InActive self.old.cells.heap self.old.regions frames.now slot
            (λ number. Stays self.old.cells.heap number w) ⊎ IsTemp self.old.cells.heap slot }
        ensures put { result ≡ true → (index < width (body_at self.old.cells.heap slot))
            × (self.new.cells.heap ≡ with_field self.old.cells.heap slot index w) }
        ensures lacks { result ≡ false → self.new ≡ self.old }
        ensures regions { self.new.regions ≡ self.old.regions }
    {
        // it is called for its clauses alone
        let _ = frames.top();
        self.cells.replace_plain(slot, index, w)
    }

    /// Writes a field of a cell of the active region, or of a temporary, and answers what stood
    /// there. The field may have owned a region, and may come to own one.
    pub fn swap(&mut self, frames: &Frames, slot: usize, k: u32, w: Word) -> Word
        requires width { k < width (body_at self.old.cells.heap slot) }
        requires place { InActive self.old.cells.heap self.old.regions frames.now slot
            (λ number. Comes self.old.cells.heap self.old.regions number w
            × LeadsOut self.old.cells.heap slot k number)
            ⊎ IsTemp self.old.cells.heap slot }
        ensures value { field_at self.old.cells.heap slot k ≡ Some result }
        ensures heap { self.new.cells.heap ≡ with_field self.old.cells.heap slot k w }
        ensures regions { self.new.regions ≡ self.old.regions }
    {
        let old = self.cells.field(slot, k);
        self.cells.set_field(slot, k, w);
        old
    }

    /// Opens a window with the region of the object that is referred to, and answers that object's
    /// slot. `Nil` comes exactly at nil. The window has the next number, and its base is a place
    /// among all slots.
    pub fn enter(
        &mut self,
        frames: &mut Frames,
        at: Word,
        owner: Place,
        base: usize,
    ) -> Result<usize, Refusal>
        requires region { CanEnter self.old.cells.heap at }
        requires above { BaseUpTo frames.old base }
        requires within { base ≤ length frames.old.slots }
        ensures nil { result ≡ Err Refusal.Nil ↔ at ≡ Word.Nil }
        ensures slot { IfOk result (λ slot. at ≡ Word.Slot slot) }
        ensures opened { IfOk result (λ slot. OnRegion self.old slot (λ key number.
            frames.new ≡ opened frames.old key owner base)) }
        ensures err { OnErr result (frames.new ≡ frames.old) }
        ensures same { self.new ≡ self.old }
    {
        let slot = match at {
            Word::Nil => return Err(Refusal::Nil),
            Word::Int(_) | Word::Bool(_) => unreachable!(),
            Word::Slot(slot) => slot,
        };
        let Some(key) = region_of(&self.cells, &self.regions, slot) else {
            unreachable!();
        };
        let Ok(_) = frames.push_window(key, owner, base) else {
            return Err(Refusal::Memory);
        };
        Ok(slot)
    }

    /// The key of the region in which a cell lies, where it lies in one and the hints tell it.
    #[inline(always)]
    pub fn hinted_region(&self, slot: usize) -> Option<usize>
        requires { IsHeld self.now.cells.heap slot }
        ensures { IfSome result (λ key. (n : ℕ) × LiesIn self.now.cells.heap n slot
            × HasNumber self.now.regions key n) }
    {
        let Label::Region(number) = self.cells.label(slot) else {
            return None;
        };
        let Some(key) = self.regions.hinted_key(number) else {
            return None;
        };
        Some(key)
    }

    /// Leaves the top window. Its temporaries go, and so do the closed regions that they own, with
    /// all beneath these.
    pub fn leave(&mut self, frames: &mut Frames)
        requires begun { Begun frames.old }
        requires two { 2 ≤ length frames.old.windows }
        requires temps { CanLeave self.old frames.old }
        ensures released { Released self.old self.new (GoesAlong self.old frames.old)
            (IsTopTemp frames.old) }
        ensures window { frames.new ≡ closed (without_temps frames.old) }
    {
        end_temps(&mut self.cells, &mut self.regions, frames);
        frames.clear_temps();
        frames.pop_window();
    }

    /// Releases the region that a word owns, and all beneath it; where the word is no reference,
    /// nothing goes.
    pub fn drop_iso(&mut self, at: Word)
        requires { OnSlot at (λ slot. (number : ℕ)
            × Ownerless self.old.cells.heap self.old.regions number slot) }
        ensures released { OnSlot at (λ slot. OnRegion self.old slot (λ key number.
            Released self.old self.new (Below self.old.cells.heap self.old.regions number)
            NoCell)) }
        ensures none { ((slot : ℕ) → at ≡ Word.Slot slot → ⊥) → self.new ≡ self.old }
    {
        let Word::Slot(slot) = at else {
            return;
        };
        let Some(key) = region_of(&self.cells, &self.regions, slot) else {
            unreachable!();
        };
        release_one(&mut self.cells, &mut self.regions, key);
    }

    /// Freezes the region that a word owns, and all beneath it; answers the slot of the bridge.
    /// `Nil` comes exactly at nil, and changes nothing.
    pub fn freeze(&mut self, at: Word) -> Result<usize, Trap>
        requires { CanMove self.old.cells.heap self.old.regions at }
        ensures slot { BridgeOrNil at result }
        ensures freezes { OnSlot at (λ slot. OnRegion self.old slot (λ key number.
            Freezes self.old self.new key)) }
        ensures nil { OnErr result (self.new ≡ self.old) }
    {
        let slot = match at {
            Word::Nil => return Err(Trap::Nil),
            Word::Int(_) | Word::Bool(_) => unreachable!(),
            Word::Slot(slot) => slot,
        };
        let Some(key) = region_of(&self.cells, &self.regions, slot) else {
            unreachable!();
        };
        freeze(&mut self.cells, &mut self.regions, key);
        Ok(slot)
    }

    /// Merges the region that a word owns into the active one; answers the slot of its bridge.
    /// `Nil` comes exactly at nil. What is refused changes nothing.
    pub fn merge(&mut self, frames: &Frames, at: Word) -> Result<usize, Refusal>
        requires owned { CanMove self.old.cells.heap self.old.regions at }
        requires window { 0 < length frames.now.windows }
        requires key { OnTop frames.now (λ top. IsKey self.old.regions top.region) }
        requires apart { OnSlot at (λ slot. OnTop frames.now (λ top.
            NotBeneath self.old slot top.region)) }
        ensures nil { result ≡ Err Refusal.Nil ↔ at ≡ Word.Nil }
        ensures slot { IfOk result (λ slot. at ≡ Word.Slot slot) }
        ensures merges { IfOk result (λ slot. OnTop frames.now (λ top.
            OnRegion self.old slot (λ key number. Merges self.old self.new key top.region))) }
        ensures err { OnErr result (self.new ≡ self.old) }
    {
        let slot = match at {
            Word::Nil => return Err(Refusal::Nil),
            Word::Int(_) | Word::Bool(_) => unreachable!(),
            Word::Slot(slot) => slot,
        };
        let Some(key) = region_of(&self.cells, &self.regions, slot) else {
            unreachable!();
        };
        let into = frames.top().region;
        let Ok(()) = merge(&mut self.cells, &mut self.regions, key, into) else {
            return Err(Refusal::Memory);
        };
        Ok(slot)
    }

    /// Collects the active region by its manager, and releases the regions that were owned by what
    /// went; None exactly where the manager is an arena. The roots are the bridge, the slots from
    /// the top window's base, and the top window's temporaries. One step is counted for each field
    /// that is looked at.
    pub fn collect<L: Ledger>(&mut self, frames: &Frames, steps: &mut Steps<L>) -> Option<Collected>
        requires begun { Begun frames.now }
        requires key { OnTop frames.now (λ top. IsKey self.old.regions top.region) }
        requires slots { OnTop frames.now (λ top.
            WordsLeadToHeld self.old.cells.heap (drop top.base frames.now.slots)) }
        requires temps { AllHeld self.old.cells.heap (top_temps frames.now) }
        requires temps_lead { TempsLeadToHeld self.old.cells.heap (top_temps frames.now) }
        ensures collects { OnTop frames.now (λ top. OfRegion self.old.regions top.region (λ r.
            CollectsBy r.manager self.old self.new top.region r (roots_of r.bridge
            (drop top.base frames.now.slots) (top_temps frames.now)) result)) }
        ensures cost { OnTop frames.now (λ top. OfRegion self.old.regions top.region (λ r.
            steps.new ≤ steps.old
            + sum_by (λ t. width (body_at self.old.cells.heap t)) (top_temps frames.now)
            + region_fields self.old.cells.heap r.number)) }
    {
        let key = frames.top().region;
        let slots = frames.slots();
        let temps = frames.temps();
        collect_by(&mut self.cells, &mut self.regions, key, slots, temps, steps)
    }

    /// As `collect`, but what it keeps of a traced region moves to the lowest slots that the region
    /// had, the bridge's left out, and what leads there is rewritten. The bound on steps is twice
    /// that of `collect`.
    pub fn collect_sliding<L: Ledger>(
        &mut self,
        frames: &mut Frames,
        steps: &mut Steps<L>,
    ) -> Option<Collected>
        requires begun { Begun frames.old }
        requires key { OnTop frames.old (λ top. IsKey self.old.regions top.region) }
        requires slots { OnTop frames.old (λ top.
            WordsLeadToHeld self.old.cells.heap (drop top.base frames.old.slots)) }
        requires temps { AllHeld self.old.cells.heap (top_temps frames.old) }
        requires temps_lead { TempsLeadToHeld self.old.cells.heap (top_temps frames.old) }
        ensures slides { OnTop frames.old (λ top. OfRegion self.old.regions top.region (λ r.
            SlidesBy r.manager self.old self.new top.region r frames.old frames.new result)) }
        ensures cost { OnTop frames.old (λ top. OfRegion self.old.regions top.region (λ r.
            steps.new ≤ steps.old
            + 2 * (sum_by (λ t. width (body_at self.old.cells.heap t)) (top_temps frames.old)
            + region_fields self.old.cells.heap r.number))) }
    {
        let key = frames.top().region;
        slide_by(&mut self.cells, &mut self.regions, key, frames, steps)
    }

    /// The number of fields of a held cell, which for an array is that of its elements.
    pub fn size(&self, slot: usize) -> u32
        requires { IsHeld self.now.cells.heap slot }
        ensures { result ≡ width (body_at self.now.cells.heap slot) }
    {
        self.cells.field_count(slot)
    }

    /// That a held cell has fewer than 2^32 fields. It is called for this clause alone.
    pub fn has_few_fields(&self, slot: usize)
        requires { IsHeld self.now.cells.heap slot }
        ensures { width (body_at self.now.cells.heap slot) < 2 ^ 32 }
    {
        // compiled by itself it becomes empty; with `inline(always)` its reads would be kept where
        // the caller reads the same
        let _ = self.cells.field_count(slot);
    }

    /// The serial of a held cell.
    pub fn serial(&self, slot: usize) -> u64
        requires { IsHeld self.now.cells.heap slot }
        ensures { option_map (λ (b : BodyOf). b.serial) (body_at self.now.cells.heap slot)
            ≡ Some result }
    {
        self.cells.serial(slot)
    }

    /// The active region.
    pub fn active(&self, frames: &Frames) -> Active
        requires window { 0 < length frames.now.windows }
        requires key { OnTop frames.now (λ w. IsKey self.now.regions w.region) }
        ensures { OnTop frames.now (λ w. Tells self.now.regions w.region result) }
    {
        let key = frames.top().region;
        Active {
            region: self.regions.number(key),
            manager: self.regions.manager(key),
            held: self.regions.members(key).len() as u64,
        }
    }

    /// Whether a word leads to a cell of a region that no window has open.
    pub fn owns(&self, frames: &Frames, at: Word) -> bool
        requires { (s : ℕ) → at ≡ Word.Slot s → IsHeld self.now.cells.heap s }
        ensures closed { result ≡ true → LeadsIntoClosed self.now frames.now at }
        ensures only { LeadsIntoClosed self.now frames.now at → result ≡ true }
    {
        let Word::Slot(slot) = at else {
            return false;
        };
        let Label::Region(number) = self.cells.label(slot) else {
            return false;
        };
        if let Some(top) = frames.top_window() {
            if self.regions.has_number(top.region, number) {
                return false;
            }
        }
        match self.regions.key(number) {
            Some(key) => !frames.is_open(key),
            None => false,
        }
    }

    /// Whether a word leads into the active region, or into none. It owns no closed one then.
    #[inline(always)]
    pub fn is_at_home(&self, frames: &Frames, at: Word) -> bool
        requires { (s : ℕ) → at ≡ Word.Slot s → IsHeld self.now.cells.heap s }
        ensures { result ≡ true → LeadsIntoClosed self.now frames.now at → ⊥ }
    {
        let Word::Slot(slot) = at else {
            return true;
        };
        let Label::Region(number) = self.cells.label(slot) else {
            return true;
        };
        match frames.top_window() {
            Some(top) => self.regions.has_number(top.region, number),
            None => false,
        }
    }

    /// The object with a serial, as it is shown; None exactly where no held cell has that serial.
    pub fn shown(&self, alloc: Global, serial: u64) -> Result<Option<Seen>, Memory>
        requires { (s n : ℕ) → label_at self.now.cells.heap s ≡ Some (Temp n)
            → AllLead self.now.cells.heap s }
        ensures { IfOk result (Shows self.now.cells.heap serial) }
    {
        let Some(slot) = self.cells.find(serial) else {
            return Ok(None);
        };
        let fields = vals(alloc, &self.cells, slot)?;
        Ok(Some(Seen {
            class: self.cells.class(slot),
            fields,
            label: self.cells.label(slot),
        }))
    }

    /// The cell that a slot holds; None where it holds none.
    pub fn at(&self, slot: usize) -> Option<Held>
        ensures none { result ≡ None → IsHeld self.now.cells.heap slot → ⊥ }
        ensures serial { IfSome result (λ held. option_map (λ (b : BodyOf). b.serial)
            (body_at self.now.cells.heap slot) ≡ Some held.serial) }
        ensures class { IfSome result (λ held. option_map (λ (b : BodyOf). b.class)
            (body_at self.now.cells.heap slot) ≡ Some held.class) }
        ensures label { IfSome result (λ held. label_at self.now.cells.heap slot
            ≡ Some held.label) }
        ensures fields { IfSome result (λ held. held.fields
            ≡ width (body_at self.now.cells.heap slot)) }
    {
        if !self.cells.is_held(slot) {
            return None;
        }
        Some(Held {
            serial: self.cells.serial(slot),
            class: self.cells.class(slot),
            label: self.cells.label(slot),
            fields: self.cells.field_count(slot),
        })
    }

    /// The numbers of the heap.
    pub fn numbers(&self) -> EndNumbers
        ensures { result ≡ end_numbers self.now }
    {
        let frozen = self.cells.frozen();
        EndNumbers {
            steps: 0,
            made: self.cells.made(),
            held: self.cells.held() - frozen,
            frozen,
            regions: self.regions.count() as u64,
            collections: 0,
            high: self.cells.high() as u64,
        }
    }
}
