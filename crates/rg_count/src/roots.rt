//! Roots link to themselves while a region is counted down
//! (docs/architecture.md, "Counting").

ghost use Rattle.std.specs.Prelude.{◌≡◌, ℕ, ◌+◌, Some, length, slice_get, sum_by};
ghost use Rattle.rg_cells.specs.Table.{IsHeld, body_at, field_at, width};
ghost use Rattle.rg_regions.specs.Collection.{WordsLeadToHeld, AllHeld, TempsLeadToHeld};
ghost use Rattle.rg_count.specs.Inner.Flags.{Cleared, Flags, Flagged, Among, InTemps};

use rg_base::{Steps, Word};
use rg_cells::Cells;
use rg_regions::slot_in;
use std::sync::ledger::Ledger;

/// No member links to a cell.
pub fn clear(cells: &mut Cells, members: &[usize])
    requires { AllHeld cells.old.heap members.now }
    ensures { Cleared members.now (length members.now) cells.old cells.new }
{
    for slot in members {
        cells.set_link(*slot, None);
    }
}

/// A cell of the region to which a word leads links to itself.
fn flag(cells: &mut Cells, region: u64, w: Word)
    requires { (s : ℕ) → w ≡ Word.Slot s → IsHeld cells.old.heap s }
    ensures { Flags region w cells.old cells.new }
{
    let Some(slot) = slot_in(cells, region, w) else {
        return;
    };
    cells.set_link(slot, Some(slot));
}

/// The bridge links to itself.
pub fn flag_bridge(cells: &mut Cells, region: u64, bridge: Option<usize>)
    requires { (s : ℕ) → bridge ≡ Some s → IsHeld cells.old.heap s }
    ensures { Flagged cells.old.heap region (λ s. bridge ≡ Some s) cells.old cells.new }
{
    let Some(slot) = bridge else {
        return;
    };
    flag(cells, region, Word::Slot(slot));
}

/// The cells of the region to which words lead link to themselves.
pub fn flag_words(cells: &mut Cells, region: u64, words: &[Word])
    requires { WordsLeadToHeld cells.old.heap words.now }
    ensures { Flagged cells.old.heap region (Among (λ k. slice_get words.now k)
        (length words.now)) cells.old cells.new }
{
    for w in words {
        flag(cells, region, *w);
    }
}

/// The cells of the region to which fields of a cell lead link to themselves; one step a field.
fn flag_fields<L: Ledger>(cells: &mut Cells, region: u64, slot: usize, steps: &mut Steps<L>)
    requires held { IsHeld cells.old.heap slot }
    requires lead { (k s : ℕ) → field_at cells.old.heap slot k ≡ Some (Word.Slot s)
        → IsHeld cells.old.heap s }
    ensures flagged { Flagged cells.old.heap region (Among (λ k. field_at cells.old.heap slot k)
        (width (body_at cells.old.heap slot))) cells.old cells.new }
    ensures cost { steps.new ≡ steps.old + width (body_at cells.old.heap slot) }
{
    for k in 0..cells.field_count(slot) {
        let w = cells.look(slot, k, steps);
        flag(cells, region, w);
    }
}

/// The cells of the region to which fields of temporaries lead link to themselves; one step a
/// field.
pub fn flag_temps<L: Ledger>(cells: &mut Cells, region: u64, temps: &[usize], steps: &mut Steps<L>)
    requires held { AllHeld cells.old.heap temps.now }
    requires lead { TempsLeadToHeld cells.old.heap temps.now }
    ensures flagged { Flagged cells.old.heap region (InTemps cells.old.heap temps.now
        (length temps.now)) cells.old cells.new }
    ensures cost { steps.new
        ≡ steps.old + sum_by (λ t. width (body_at cells.old.heap t)) temps.now }
{
    for temp in temps {
        flag_fields(cells, region, *temp, steps);
    }
}
