//! Counting down: cells without a count that are no roots stand in the zero list, which runs
//! through the links (docs/architecture.md, "Counting").

ghost use Rattle.std.specs.Prelude.{◌≡◌, ◌≢◌, ℕ, ◌+◌, ◌<◌, Some, length, slice_get, sum_by};
ghost use Rattle.std.specs.Bool.{OnTrue, OnFalse};
ghost use Rattle.rg_cells.specs.Table.{IsHeld, body_at, field_at, width, mark_at, link_at};
ghost use Rattle.rg_regions.specs.Table.{Record, record_at};
ghost use Rattle.rg_regions.specs.Reach.{LiesIn};
ghost use Rattle.rg_regions.specs.Grove.{Members, referrers};
ghost use Rattle.rg_regions.specs.Chains.{AllInTable, LeadsToHeld, LeadsOnce};
ghost use Rattle.rg_regions.specs.Owned.{Every, FollowsFields};
ghost use Rattle.rg_regions.specs.Collection.{roots_of, WordsLeadToHeld, AllHeld};
ghost use Rattle.rg_regions.specs.Collection.{TempsLeadToHeld};
ghost use Rattle.rg_count.specs.Inner.Counting.{Lowers, Lowered, IsReady, Listed, CountedDown};
ghost use Rattle.rg_count.specs.Inner.Flags.{Rooted};
ghost use Rattle.rg_regions.specs.Same.{LinksStay};

use crate::roots::{clear, flag_bridge, flag_temps, flag_words};
use rg_base::{Steps, Word};
use rg_cells::Cells;
use rg_regions::{Regions, chain_word, removed, slot_in};
use std::sync::ledger::Ledger;

/// The roots of a region: its bridge, and its cells in slots and in fields of temporaries.
#[derive(Clone, Copy)]
pub struct Roots<'a> {
    pub bridge: Option<usize>,
    pub slots: &'a [Word],
    pub temps: &'a [usize],
}

/// The heads of the zero list and of the chain of regions without an owner.
#[derive(Clone, Copy)]
pub struct Heads {
    pub zero: Option<usize>,
    pub orphans: Option<usize>,
}

/// Whether a cell is flagged as a root.
pub fn is_root(cells: &Cells, slot: usize) -> bool
    requires { IsHeld cells.now.heap slot }
    ensures yes { OnTrue result (link_at cells.now slot ≡ Some slot) }
    ensures no { OnFalse result (link_at cells.now slot ≢ Some slot) }
{
    match cells.link(slot) {
        Some(next) => next == slot,
        None => false,
    }
}

/// The count of a cell of the region to which a word leads falls. Where it falls to 0, and the
/// cell is no root, the cell is put on the zero list. It answers the head of the list.
fn lower(cells: &mut Cells, region: u64, w: Word, head: Option<usize>) -> Option<usize>
    requires held { (s : ℕ) → w ≡ Word.Slot s → IsHeld cells.old.heap s }
    requires above { (s : ℕ) → w ≡ Word.Slot s → LiesIn cells.old.heap region s
        → 0 < mark_at cells.old s }
    ensures { Lowers region w head result cells.old cells.new }
{
    let Some(slot) = slot_in(cells, region, w) else {
        return head;
    };
    removed(cells, slot);
    if cells.mark(slot) != 0 {
        return head;
    }
    if is_root(cells, slot) {
        return head;
    }
    cells.set_link(slot, head);
    Some(slot)
}

/// Lists the members without a count that are no roots.
fn first_zeros(cells: &mut Cells, members: &[usize]) -> Option<usize>
    requires held { AllHeld cells.old.heap members.now }
    requires once { (i j s : ℕ) → slice_get members.now i ≡ Some s
        → slice_get members.now j ≡ Some s → i ≡ j }
    ensures { Listed members.now (length members.now) cells.old cells.new result }
{
    let mut head = None;
    for slot in members {
        if cells.mark(*slot) != 0 {
            continue;
        }
        if is_root(cells, *slot) {
            continue;
        }
        cells.set_link(*slot, head);
        head = Some(*slot);
    }
    head
}

/// All fields of a spent cell are looked at, one step each: counts fall, and regions lose their
/// owner.
fn lower_fields<L: Ledger>(
    cells: &mut Cells,
    regions: &mut Regions,
    region: u64,
    slot: usize,
    heads: Heads,
    steps: &mut Steps<L>,
) -> Heads
    requires held { IsHeld cells.old.heap slot }
    requires lead { (k s : ℕ) → field_at cells.old.heap slot k ≡ Some (Word.Slot s)
        → IsHeld cells.old.heap s }
    requires labels { AllInTable cells.old.heap regions.old }
    requires ready { IsReady cells.old.heap region slot cells.old heads.zero }
    ensures lowered { Lowered cells.old.heap region slot (width (body_at cells.old.heap slot))
        cells.old cells.new heads.zero result.zero }
    ensures fields { FollowsFields cells.old.heap Every region slot
        (width (body_at cells.old.heap slot)) regions.old regions.new heads.orphans
        result.orphans }
    ensures cost { steps.new ≡ steps.old + width (body_at cells.old.heap slot) }
{
    let mut zero = heads.zero;
    let mut orphans = heads.orphans;
    for k in 0..cells.field_count(slot) {
        let w = cells.look(slot, k, steps);
        zero = lower(cells, region, w, zero);
        orphans = chain_word(cells, regions, region, w, orphans);
    }
    Heads { zero, orphans }
}

/// The roots of a region link to themselves, its other cells don't.
fn flag_roots<L: Ledger>(
    cells: &mut Cells,
    members: &[usize],
    region: u64,
    roots: &Roots<'_>,
    steps: &mut Steps<L>,
)
    requires members { Members cells.old.heap region members.now }
    requires bridge { (s : ℕ) → roots.now.bridge ≡ Some s → IsHeld cells.old.heap s }
    requires slots { WordsLeadToHeld cells.old.heap roots.now.slots.now }
    requires temps { AllHeld cells.old.heap roots.now.temps.now }
    requires temps_lead { TempsLeadToHeld cells.old.heap roots.now.temps.now }
    ensures heap { cells.new.heap ≡ cells.old.heap }
    ensures marks { cells.new.marks ≡ cells.old.marks }
    ensures links { LinksStay cells.old.heap region cells.old cells.new }
    ensures rooted { Rooted cells.old.heap region (roots_of roots.now.bridge roots.now.slots.now
        roots.now.temps.now) cells.new }
    ensures cost { steps.new
        ≡ steps.old + sum_by (λ t. width (body_at cells.old.heap t)) roots.now.temps.now }
{
    clear(cells, members);
    flag_bridge(cells, region, roots.bridge);
    flag_words(cells, region, roots.slots);
    flag_temps(cells, region, roots.temps, steps);
}

/// Counts a region down: spent cells have no count and no flag afterwards, all other cells have a
/// flag or the count of the fields of cells that aren't spent. It answers the chain of the
/// regions that spent cells own.
pub fn count_down<L: Ledger>(
    cells: &mut Cells,
    regions: &mut Regions,
    key: usize,
    region: u64,
    roots: &Roots<'_>,
    steps: &mut Steps<L>,
) -> Option<usize>
    requires there { (r : Record) × (record_at regions.old key ≡ Some r)
        × Members cells.old.heap region r.members }
    requires counts { (s : ℕ) → LiesIn cells.old.heap region s
        → mark_at cells.old s ≡ referrers cells.old.heap region s }
    requires one { LeadsOnce cells.old.heap region }
    requires lead { LeadsToHeld cells.old.heap region }
    requires labels { AllInTable cells.old.heap regions.old }
    requires bridge { (s : ℕ) → roots.now.bridge ≡ Some s → IsHeld cells.old.heap s }
    requires slots { WordsLeadToHeld cells.old.heap roots.now.slots.now }
    requires temps { AllHeld cells.old.heap roots.now.temps.now }
    requires temps_lead { TempsLeadToHeld cells.old.heap roots.now.temps.now }
    ensures { CountedDown cells.old.heap region (roots_of roots.now.bridge roots.now.slots.now
        roots.now.temps.now) cells.old regions.old (steps.old
        + sum_by (λ t. width (body_at cells.old.heap t)) roots.now.temps.now) cells.new regions.new
        result steps.new }
{
    flag_roots(cells, regions.members(key), region, roots, steps);
    let mut left = regions.members(key).len();
    let mut zero = first_zeros(cells, regions.members(key));
    let mut orphans = None;
    'down: while let Some(slot) = zero {
        left -= 1;
        zero = cells.link(slot);
        let heads = Heads { zero, orphans };
        let heads = lower_fields(cells, regions, region, slot, heads, steps);
        zero = heads.zero;
        orphans = heads.orphans;
    }
    orphans
}
