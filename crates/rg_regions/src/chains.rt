//! Chains of the regions into which cells lead (docs/architecture.md, "Regions").

ghost use Rattle.std.specs.Prelude.{◌≡◌, ℕ, IfSome, IfNone};
ghost use Rattle.rg_cells.specs.Table.{IsHeld};
ghost use Rattle.rg_regions.specs.Table.{InTable};
ghost use Rattle.rg_regions.specs.Reach.{LiesIn};
ghost use Rattle.rg_regions.specs.Chains.{AllInTable, PutFirst, Follows};

use crate::regions::Regions;
use rg_base::{Label, Word};
use rg_cells::Cells;

/// The slot to which a word leads, if the cell there is one of the region.
pub fn slot_in(cells: &Cells, region: u64, w: Word) -> Option<usize>
    requires { (s : ℕ) → w ≡ Word.Slot s → IsHeld cells.now.heap s }
    ensures leads { IfSome result (λ slot. w ≡ Word.Slot slot) }
    ensures lies { IfSome result (λ slot. LiesIn cells.now.heap region slot) }
    ensures none { IfNone result ((s : ℕ) → w ≡ Word.Slot s
        → LiesIn cells.now.heap region s → ⊥) }
{
    let Word::Slot(slot) = w else {
        return None;
    };
    let Label::Region(number) = cells.label(slot) else {
        return None;
    };
    if number != region {
        return None;
    }
    Some(slot)
}

// The region of a number becomes the head of the chain.
fn chain(regions: &mut Regions, number: u64, head: Option<usize>) -> Option<usize>
    requires { InTable regions.old number }
    ensures { PutFirst regions.old number head result regions.new }
{
    let Some(key) = regions.key(number) else {
        unreachable!();
    };
    regions.set_link(key, head);
    Some(key)
}

/// Where a word of a region's cell leads into another region, that one becomes the head of the
/// chain; else nothing changes. It answers the head.
pub fn chain_word(
    cells: &Cells,
    regions: &mut Regions,
    region: u64,
    w: Word,
    head: Option<usize>,
) -> Option<usize>
    requires held { (s : ℕ) → w ≡ Word.Slot s → IsHeld cells.now.heap s }
    requires labels { AllInTable cells.now.heap regions.old }
    ensures { Follows cells.now.heap region w head result regions.old regions.new }
{
    let Word::Slot(to) = w else {
        return head;
    };
    let Label::Region(number) = cells.label(to) else {
        return head;
    };
    if number == region {
        return head;
    }
    chain(regions, number, head)
}
