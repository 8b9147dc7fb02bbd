//! Where each black cell of a region goes: the k-th of them to the k-th of the region's slots, the
//! bridge and its slot left out (docs/architecture.md, "A manager that moves its cells").

ghost use Rattle.std.specs.Prelude.{◌≡◌, Some, ◌<◌, length, true, false};
ghost use Rattle.rg_regions.specs.Grove.{Members};
ghost use Rattle.rg_copy.specs.Inner.Plans.{Rises, Plans, FreePlace};

use rg_cells::Cells;

// A slot is the bridge.
fn is_bridge(bridge: Option<usize>, slot: usize) -> bool
    ensures yes { result ≡ true → bridge ≡ Some slot }
    ensures no { result ≡ false → bridge ≡ Some slot → ⊥ }
{
    match bridge {
        Some(own) => own == slot,
        None => false,
    }
}

// The place of a member that isn't the bridge: this one, or the next.
fn free_place(members: &[usize], bridge: Option<usize>, at: usize) -> usize
    requires { at < length members.now }
    ensures { FreePlace members.now bridge at result }
{
    if is_bridge(bridge, members[at]) {
        at + 1
    } else {
        at
    }
}

/// Writes into the link of each black member where it goes, and None into those of white ones.
pub fn plan(cells: &mut Cells, members: &[usize], region: u64, bridge: Option<usize>)
    requires members { Members cells.old.heap region members.now }
    requires rise { Rises members.now }
    ensures { Plans cells.old region bridge cells.new }
{
    let mut free = 0;
    for place in 0..members.len() {
        let slot = members[place];
        if cells.mark(slot) == 0 {
            cells.set_link(slot, None);
            continue;
        }
        if is_bridge(bridge, slot) {
            cells.set_link(slot, Some(slot));
            continue;
        }
        let at = free_place(members, bridge, free);
        cells.set_link(slot, Some(members[at]));
        free = at + 1;
    }
}
