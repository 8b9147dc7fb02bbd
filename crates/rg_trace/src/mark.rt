//! Marking: white cells have the mark 0, grey ones 1, black ones 2; the grey list runs through the
//! links (docs/architecture.md, "Mark and sweep").

ghost use Rattle.std.specs.Prelude.{◌≡◌, ℕ, ◌+◌, Some, length, slice_get, sum_by};
ghost use Rattle.rg_cells.specs.Table.{IsHeld, body_at, field_at, width};
ghost use Rattle.rg_regions.specs.Chains.{LeadsToHeld};
ghost use Rattle.rg_regions.specs.Collection.{roots_of, WordsLeadToHeld, AllHeld};
ghost use Rattle.rg_regions.specs.Collection.{TempsLeadToHeld};
ghost use Rattle.rg_trace.specs.Marking.{AllWhite};
ghost use Rattle.rg_trace.specs.Inner.Marking.{Greys, Scanned, ScannedTemps};
ghost use Rattle.rg_trace.specs.Marking.{Marked, black_fields};
ghost use Rattle.rg_trace.specs.Inner.Marking.{ScannedBridge};

use rg_base::{Steps, Word};
use rg_cells::Cells;
use rg_regions::slot_in;
use std::sync::ledger::Ledger;

/// A white cell of the region to which a word leads becomes grey, and the new head of the list.
fn grey(cells: &mut Cells, region: u64, w: Word, head: Option<usize>) -> Option<usize>
    requires { (s : ℕ) → w ≡ Word.Slot s → IsHeld cells.old.heap s }
    ensures { Greys region w head result cells.old cells.new }
{
    let Some(slot) = slot_in(cells, region, w) else {
        return head;
    };
    if cells.mark(slot) != 0 {
        return head;
    }
    cells.set_mark(slot, 1);
    cells.set_link(slot, head);
    Some(slot)
}

/// The bridge is looked at.
fn grey_bridge(cells: &mut Cells, region: u64, bridge: Option<usize>) -> Option<usize>
    requires { (s : ℕ) → bridge ≡ Some s → IsHeld cells.old.heap s }
    ensures { ScannedBridge cells.old.heap region bridge cells.old cells.new result }
{
    let Some(slot) = bridge else {
        return None;
    };
    grey(cells, region, Word::Slot(slot), None)
}

/// All words are looked at.
fn grey_words(
    cells: &mut Cells,
    region: u64,
    words: &[Word],
    mut head: Option<usize>,
) -> Option<usize>
    requires { WordsLeadToHeld cells.old.heap words.now }
    ensures { Scanned cells.old.heap region (λ k. slice_get words.now k) (length words.now)
        cells.old cells.new head result }
{
    for w in words {
        head = grey(cells, region, *w, head);
    }
    head
}

/// All fields of a cell are looked at, one step each.
fn grey_fields<L: Ledger>(
    cells: &mut Cells,
    region: u64,
    slot: usize,
    mut head: Option<usize>,
    steps: &mut Steps<L>,
) -> Option<usize>
    requires held { IsHeld cells.old.heap slot }
    requires lead { (k s : ℕ) → field_at cells.old.heap slot k ≡ Some (Word.Slot s)
        → IsHeld cells.old.heap s }
    ensures scanned { Scanned cells.old.heap region (λ k. field_at cells.old.heap slot k)
        (width (body_at cells.old.heap slot)) cells.old cells.new head result }
    ensures cost { steps.new ≡ steps.old + width (body_at cells.old.heap slot) }
{
    for k in 0..cells.field_count(slot) {
        let w = cells.look(slot, k, steps);
        head = grey(cells, region, w, head);
    }
    head
}

/// All fields of temporaries are looked at, one step each.
fn grey_temps<L: Ledger>(
    cells: &mut Cells,
    region: u64,
    temps: &[usize],
    mut head: Option<usize>,
    steps: &mut Steps<L>,
) -> Option<usize>
    requires held { AllHeld cells.old.heap temps.now }
    requires lead { TempsLeadToHeld cells.old.heap temps.now }
    ensures traced { ScannedTemps cells.old.heap region temps.now (length temps.now)
        cells.old cells.new head result }
    ensures cost { steps.new
        ≡ steps.old + sum_by (λ t. width (body_at cells.old.heap t)) temps.now }
{
    for temp in temps {
        head = grey_fields(cells, region, *temp, head, steps);
    }
    head
}

/// Marks a region: what its roots reach is black, its other cells are white.
pub fn mark_region<L: Ledger>(
    cells: &mut Cells,
    region: u64,
    bridge: Option<usize>,
    slots: &[Word],
    temps: &[usize],
    steps: &mut Steps<L>,
)
    requires white { AllWhite cells.old region }
    requires lead { LeadsToHeld cells.old.heap region }
    requires bridge { (s : ℕ) → bridge ≡ Some s → IsHeld cells.old.heap s }
    requires slots { WordsLeadToHeld cells.old.heap slots.now }
    requires temps { AllHeld cells.old.heap temps.now }
    requires temps_lead { TempsLeadToHeld cells.old.heap temps.now }
    ensures marked { Marked cells.old.heap region (roots_of bridge slots.now temps.now)
        cells.old cells.new }
    ensures cost { steps.new
        ≡ steps.old + sum_by (λ t. width (body_at cells.old.heap t)) temps.now
        + black_fields cells.old.heap region cells.new.marks }
{
    let mut head = grey_bridge(cells, region, bridge);
    head = grey_words(cells, region, slots, head);
    head = grey_temps(cells, region, temps, head, steps);
    'grey: while let Some(slot) = head {
        head = cells.link(slot);
        cells.set_mark(slot, 2);
        head = grey_fields(cells, region, slot, head, steps);
    }
}
