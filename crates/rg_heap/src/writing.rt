//! Fields that are written (docs/architecture.md, "The heap").

ghost use Rattle.std.specs.Prelude.{◌≡◌, ◌<◌, ◌≤◌, ◌+◌, ◌-◌, ◌^◌, ℕ, None, IfSome, true, false};
ghost use Rattle.rg_cells.specs.Table.{IsHeld, body_at, mark_at, width, with_field};
ghost use Rattle.rg_regions.specs.Table.{IsKey};
ghost use Rattle.rg_regions.specs.Reach.{LiesIn};
ghost use Rattle.rg_regions.specs.Grove.{Grove};
ghost use Rattle.rg_heap.specs.Writes.{counted};
ghost use Rattle.rg_heap.specs.Inner.Marks.{Counts, LeadsNowhere, MayWrite, Recounts};

use rg_base::{Label, Manager, Word};
use rg_cells::Cells;
use rg_regions::{Regions, added, removed};

// The cell of a region to which a word leads, if it leads to one.
fn target(cells: &Cells, region: u64, w: Word) -> Option<usize>
    requires { (s : ℕ) → w ≡ Word.Slot s → IsHeld cells.now.heap s }
    ensures some { IfSome result (λ s. (w ≡ Word.Slot s) × LiesIn cells.now.heap region s) }
    ensures none { result ≡ None → (s : ℕ) → w ≡ Word.Slot s → LiesIn cells.now.heap region s → ⊥ }
{
    let Word::Slot(to) = w else {
        return None;
    };
    let Label::Region(number) = cells.label(to) else {
        return None;
    };
    if number != region {
        return None;
    }
    Some(to)
}

// One more field of a region leads where a word leads.
fn raise(cells: &mut Cells, region: u64, w: Word)
    requires held { (s : ℕ) → w ≡ Word.Slot s → IsHeld cells.old.heap s }
    requires room { (s : ℕ) → LiesIn cells.old.heap region s → mark_at cells.old s < 2 ^ 64 - 1 }
    ensures heap { cells.new.heap ≡ cells.old.heap }
    ensures marks { (s : ℕ) → mark_at cells.new s
        ≡ mark_at cells.old s + counted cells.old.heap region w s }
{
    let Some(to) = target(cells, region, w) else {
        return;
    };
    added(cells, to);
}

// One field less of a region leads where a word leads.
fn lower(cells: &mut Cells, region: u64, w: Word)
    requires held { (s : ℕ) → w ≡ Word.Slot s → IsHeld cells.old.heap s }
    requires marked { (s : ℕ) → w ≡ Word.Slot s → LiesIn cells.old.heap region s
        → 0 < mark_at cells.old s }
    ensures heap { cells.new.heap ≡ cells.old.heap }
    ensures marks { (s : ℕ) → mark_at cells.new s + counted cells.old.heap region w s
        ≡ mark_at cells.old s }
{
    let Some(to) = target(cells, region, w) else {
        return;
    };
    removed(cells, to);
}

// The marks follow where a field of a cell of a region that counts, or of a temporary, will lead.
fn recount(cells: &mut Cells, regions: &Regions, key: usize, slot: usize, k: u32, w: Word)
    requires grove { Grove cells.old regions.now }
    requires counts { Counts regions.now key }
    requires width { k < width (body_at cells.old.heap slot) }
    requires place { MayWrite cells.old.heap regions.now key slot w }
    ensures { Recounts cells.old regions.now cells.new slot k w }
{
    let Label::Region(region) = cells.label(slot) else {
        return;
    };
    // all fields together can be counted
    let _ = cells.fields();
    let old = cells.field(slot, k);
    raise(cells, region, w);
    lower(cells, region, old);
}

// Writes a field of a cell of a region that counts, or of a temporary.
#[inline(never)]
fn write_counted(cells: &mut Cells, regions: &Regions, key: usize, slot: usize, k: u32, w: Word)
    requires grove { Grove cells.old regions.now }
    requires counts { Counts regions.now key }
    requires width { k < width (body_at cells.old.heap slot) }
    requires place { MayWrite cells.old.heap regions.now key slot w }
    ensures heap { cells.new.heap ≡ with_field cells.old.heap slot k w }
    ensures grove { Grove cells.new regions.now }
{
    recount(cells, regions, key, slot, k, w);
    cells.set_field(slot, k, w);
}

// Whether a word leads to no object.
#[inline]
fn leads_nowhere(w: Word) -> bool
    ensures { result ≡ true → LeadsNowhere w }
{
    match w {
        Word::Nil | Word::Int(_) | Word::Bool(_) => true,
        Word::Slot(_) => false,
    }
}

// Writes a field where it or what stands there may lead to an object.
#[inline(never)]
fn write_leading(cells: &mut Cells, regions: &Regions, key: usize, slot: usize, k: u32, w: Word)
    requires grove { Grove cells.old regions.now }
    requires key { IsKey regions.now key }
    requires width { k < width (body_at cells.old.heap slot) }
    requires place { MayWrite cells.old.heap regions.now key slot w }
    ensures heap { cells.new.heap ≡ with_field cells.old.heap slot k w }
    ensures grove { Grove cells.new regions.now }
{
    let Manager::Count = regions.manager(key) else {
        cells.set_field(slot, k, w);
        return;
    };
    write_counted(cells, regions, key, slot, k, w);
}

// Writes a field that will lead to an object.
#[inline(always)]
fn write_reference(cells: &mut Cells, regions: &Regions, key: usize, slot: usize, k: u32, to: usize)
    requires grove { Grove cells.old regions.now }
    requires key { IsKey regions.now key }
    requires width { k < width (body_at cells.old.heap slot) }
    requires place { MayWrite cells.old.heap regions.now key slot (Word.Slot to) }
    ensures heap { cells.new.heap ≡ with_field cells.old.heap slot k (Word.Slot to) }
    ensures grove { Grove cells.new regions.now }
{
    let Manager::Count = regions.manager(key) else {
        cells.set_field(slot, k, Word::Slot(to));
        return;
    };
    write_counted(cells, regions, key, slot, k, Word::Slot(to));
}

/// Writes a field of a cell of the region of a key, or of a temporary. Whether the region counts
/// isn't asked where neither what stood there nor what is written leads to an object.
#[inline(always)]
pub fn write_field(cells: &mut Cells, regions: &Regions, key: usize, slot: usize, k: u32, w: Word)
    requires grove { Grove cells.old regions.now }
    requires key { IsKey regions.now key }
    requires width { k < width (body_at cells.old.heap slot) }
    requires place { MayWrite cells.old.heap regions.now key slot w }
    ensures heap { cells.new.heap ≡ with_field cells.old.heap slot k w }
    ensures grove { Grove cells.new regions.now }
{
    if let Word::Slot(to) = w {
        write_reference(cells, regions, key, slot, k, to);
        return;
    }
    if leads_nowhere(w) {
        if leads_nowhere(cells.field(slot, k)) {
            cells.set_field(slot, k, w);
            return;
        }
    }
    write_leading(cells, regions, key, slot, k, w);
}

// Writes an element where it or what stands there may lead to an object, or it isn't there.
#[inline(never)]
fn write_within(
    cells: &mut Cells,
    regions: &Regions,
    key: usize,
    slot: usize,
    index: usize,
    w: Word,
) -> bool
    requires grove { Grove cells.old regions.now }
    requires key { IsKey regions.now key }
    requires held { IsHeld cells.old.heap slot }
    requires place { index < width (body_at cells.old.heap slot)
        → MayWrite cells.old.heap regions.now key slot w }
    ensures put { result ≡ true → (index < width (body_at cells.old.heap slot))
        × (cells.new.heap ≡ with_field cells.old.heap slot index w) }
    ensures lacks { result ≡ false → (width (body_at cells.old.heap slot) ≤ index)
        × (cells.new ≡ cells.old) }
    ensures grove { Grove cells.new regions.now }
{
    if index >= cells.field_count(slot) as usize {
        return false;
    }
    write_leading(cells, regions, key, slot, index as u32, w);
    true
}

/// Writes an element of an array in the region of a key, or of a temporary, if it is there; answers
/// whether it is.
#[inline(always)]
pub fn write_element(
    cells: &mut Cells,
    regions: &Regions,
    key: usize,
    slot: usize,
    index: usize,
    w: Word,
) -> bool
    requires grove { Grove cells.old regions.now }
    requires key { IsKey regions.now key }
    requires held { IsHeld cells.old.heap slot }
    requires place { index < width (body_at cells.old.heap slot)
        → MayWrite cells.old.heap regions.now key slot w }
    ensures put { result ≡ true → (index < width (body_at cells.old.heap slot))
        × (cells.new.heap ≡ with_field cells.old.heap slot index w) }
    ensures lacks { result ≡ false → (width (body_at cells.old.heap slot) ≤ index)
        × (cells.new ≡ cells.old) }
    ensures grove { Grove cells.new regions.now }
{
    if !leads_nowhere(w) {
        return write_within(cells, regions, key, slot, index, w);
    }
    if cells.replace_plain(slot, index, w) {
        return true;
    }
    write_within(cells, regions, key, slot, index, w)
}
