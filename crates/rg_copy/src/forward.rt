//! What leads to a cell that goes elsewhere is rewritten
//! (docs/architecture.md, "A manager that moves its cells").

ghost use Rattle.std.specs.Prelude.{◌≡◌, ◌+◌, ◌≤◌, ℕ, Some, length, sum_by, true, false};
ghost use Rattle.rg_cells.specs.Table.{IsHeld, body_at, field_at, width};
ghost use Rattle.rg_regions.specs.Chains.{LeadsToHeld};
ghost use Rattle.rg_regions.specs.Collection.{WordsLeadToHeld, AllHeld, TempsLeadToHeld};
ghost use Rattle.rg_regions.specs.Grove.{Members};
ghost use Rattle.rg_copy.specs.Inner.Moves.{target, moved_word, Forwards, MembersForwarded};
ghost use Rattle.rg_copy.specs.Inner.Moves.{TempsClean, TempsForwarded, TempsMarked, Cleared};
ghost use Rattle.rg_copy.specs.Inner.Moves.{ForwardsSlots, IsTempAt};
ghost use Rattle.rg_copy.specs.Slid.{top_slots};
ghost use Rattle.rg_frames.specs.Changes.{Begun};

use rg_base::{Label, Steps, Word};
use rg_cells::Cells;
use rg_frames::Frames;
use std::sync::ledger::Ledger;

/// A word, once the region's cells are where their links say.
fn forward(cells: &Cells, region: u64, w: Word) -> Word
    requires { (s : ℕ) → w ≡ Word.Slot s → IsHeld cells.now.heap s }
    ensures { result ≡ moved_word (target cells.now region) w }
{
    let Word::Slot(slot) = w else {
        return w;
    };
    let Label::Region(number) = cells.label(slot) else {
        return w;
    };
    if number != region {
        return w;
    }
    match cells.link(slot) {
        Some(to) => Word::Slot(to),
        None => w,
    }
}

/// All fields of a cell are rewritten, one step each.
fn forward_fields<L: Ledger>(cells: &mut Cells, region: u64, slot: usize, steps: &mut Steps<L>)
    requires held { IsHeld cells.old.heap slot }
    requires lead { (k s : ℕ) → field_at cells.old.heap slot k ≡ Some (Word.Slot s)
        → IsHeld cells.old.heap s }
    ensures forwards { Forwards region slot cells.old cells.new }
    ensures cost { steps.new ≡ steps.old + width (body_at cells.old.heap slot) }
{
    for k in 0..cells.field_count(slot) {
        let w = cells.look(slot, k, steps);
        let v = forward(cells, region, w);
        cells.set_field(slot, k, v);
    }
}

/// All fields of black members are rewritten.
pub fn forward_members<L: Ledger>(
    cells: &mut Cells,
    members: &[usize],
    region: u64,
    steps: &mut Steps<L>,
)
    requires members { Members cells.old.heap region members.now }
    requires lead { LeadsToHeld cells.old.heap region }
    ensures forwarded { MembersForwarded cells.old region members.now
        (length members.now) cells.new }
    ensures cost { steps.new
        ≤ steps.old + sum_by (λ s. width (body_at cells.old.heap s)) members.now }
{
    for slot in members {
        if cells.mark(*slot) != 0 {
            forward_fields(cells, region, *slot, steps);
        }
    }
}

// A cell is a temporary by its label.
fn is_temp(cells: &Cells, slot: usize) -> bool
    requires { IsHeld cells.now.heap slot }
    ensures yes { result ≡ true → IsTempAt cells.now.heap slot }
    ensures no { result ≡ false → IsTempAt cells.now.heap slot → ⊥ }
{
    match cells.label(slot) {
        Label::Temp(_) => true,
        Label::Region(_) | Label::Frozen => false,
    }
}

// All fields of temporaries are rewritten once, and they are marked.
fn forward_marked<L: Ledger>(cells: &mut Cells, region: u64, temps: &[usize], steps: &mut Steps<L>)
    requires clean { TempsClean cells.old }
    requires held { AllHeld cells.old.heap temps.now }
    requires lead { TempsLeadToHeld cells.old.heap temps.now }
    ensures forwarded { TempsMarked cells.old region temps.now (length temps.now) cells.new }
    ensures cost { steps.new
        ≤ steps.old + sum_by (λ s. width (body_at cells.old.heap s)) temps.now }
{
    for temp in temps {
        if is_temp(cells, *temp) {
            if cells.mark(*temp) == 0 {
                forward_fields(cells, region, *temp, steps);
                cells.set_mark(*temp, 1);
            }
        }
    }
}

// The marks of temporaries are cleared.
fn clear_marks(cells: &mut Cells, temps: &[usize])
    requires held { AllHeld cells.old.heap temps.now }
    ensures { Cleared cells.old temps.now (length temps.now) cells.new }
{
    for temp in temps {
        if is_temp(cells, *temp) {
            cells.set_mark(*temp, 0);
        }
    }
}

/// All fields of temporaries are rewritten, once where one comes twice. What isn't a temporary by
/// its label leads to the bridge at most, which stays, or is a cell of the region itself.
pub fn forward_temps<L: Ledger>(
    cells: &mut Cells,
    region: u64,
    temps: &[usize],
    steps: &mut Steps<L>,
)
    requires clean { TempsClean cells.old }
    requires held { AllHeld cells.old.heap temps.now }
    requires lead { TempsLeadToHeld cells.old.heap temps.now }
    ensures forwarded { TempsForwarded cells.old region temps.now cells.new }
    ensures cost { steps.new
        ≤ steps.old + sum_by (λ s. width (body_at cells.old.heap s)) temps.now }
{
    forward_marked(cells, region, temps, steps);
    clear_marks(cells, temps);
}

// A word leads to a slot.
fn leads(w: Word) -> bool
    ensures { result ≡ false → (s : ℕ) → w ≡ Word.Slot s → ⊥ }
{
    match w {
        Word::Slot(_) => true,
        Word::Nil | Word::Int(_) | Word::Bool(_) => false,
    }
}

/// The slots from the top window's base are rewritten. A word that leads nowhere isn't written.
pub fn forward_slots(cells: &Cells, region: u64, frames: &mut Frames)
    requires begun { Begun frames.old }
    requires lead { WordsLeadToHeld cells.now.heap (top_slots frames.old) }
    ensures { ForwardsSlots (moved_word (target cells.now region))
        (length (top_slots frames.old)) frames.old frames.new }
{
    for k in 0..frames.slots().len() {
        let w = frames.slots()[k];
        if leads(w) {
            frames.set_shown(k, forward(cells, region, w));
        }
    }
}
