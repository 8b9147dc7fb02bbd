//! The regions that links lead to, in time linear in the regions and the links
//! (docs/language.md, "Steps").

ghost use Rattle.std.specs.Prelude.{◌<◌, ◌∷◌, ◌≡◌, ◌≤◌, [], All, IfOk, OnOk, drop};
ghost use Rattle.std.specs.Prelude.{flat_map, length, ℕ};
ghost use Rattle.rg_tree.specs.Rows.RowTrees.{classes_of};
ghost use Rattle.rg_rules.specs.Regions.{beneath};
ghost use Rattle.rg_store.specs.Inner.Found.{FindsToo};
ghost use Rattle.rg_store.specs.Links.{linked, listed};
ghost use Rattle.rg_store.specs.Regions.{AreMarked, LabelsFit};
ghost use Rattle.rg_store.specs.Shown.{AreOfClasses, store_of};

use crate::links::all_links;
use crate::objects::ObjectRow;
use rg_base::Memory;
use rg_names::Book;
use std::alloc::Global;

/// Regions that were found: each region's mark, and those that have one in the order found.
#[derive(Drop)]
pub(crate) struct Found {
    pub(crate) marks: Vec<bool>,
    pub(crate) regions: Vec<u64>,
}

/// Marks a region, where it isn't marked yet.
fn mark(found: &mut Found, region: u64) -> Result<(), Memory>
    requires fit { AreMarked found.old.marks.items found.old.regions.items }
    requires there { region < length found.old.marks.items }
    ensures { OnOk result (FindsToo found.old found.new (region ∷ [])) }
{
    let place = region as usize;
    if found.marks[place] {
        return Ok(());
    }
    let Ok(()) = found.regions.push(region) else {
        return Err(Memory);
    };
    found.marks[place] = true;
    Ok(())
}

/// Marks regions.
fn mark_all(found: &mut Found, regions: &[u64]) -> Result<(), Memory>
    requires fit { AreMarked found.old.marks.items found.old.regions.items }
    requires there { All (λ r. r < length found.old.marks.items) regions.now }
    ensures { OnOk result (FindsToo found.old found.new regions.now) }
{
    for region in regions {
        mark(found, *region)?;
    }
    Ok(())
}

/// The list of a region.
fn list_of(led: &[Vec<u64>], region: u64) -> &[u64]
    requires { region < length led.now }
    ensures { result.now ≡ listed led.now region }
{
    &led[region as usize]
}

/// Marks the regions to which links lead from those behind the first so many. All that were
/// known are done then.
fn mark_led(led: &[Vec<u64>], found: &mut Found, done: usize) -> Result<usize, Memory>
    requires fit { AreMarked found.old.marks.items found.old.regions.items }
    requires count { length led.now ≡ length found.old.marks.items }
    requires there { (r : ℕ) → r < length led.now →
        All (λ q. q < length led.now) (listed led.now r) }
    requires done { done ≤ length found.old.regions.items }
    ensures found { OnOk result (FindsToo found.old found.new
        (flat_map (listed led.now) (drop done found.old.regions.items))) }
    ensures done { IfOk result (λ n. n ≡ length found.old.regions.items) }
{
    let known = found.regions.len();
    for i in done..known {
        let region = found.regions[i];
        mark_all(found, list_of(led, region))?;
    }
    Ok(known)
}

/// A mark for each region to which links lead from one, and for that itself. Whose links they are
/// is for the caller to say.
pub fn linked(alloc: Global, led: &[Vec<u64>], region: u64) -> Result<Vec<bool>, Memory>
    requires links { (r : ℕ) → r < length led.now →
        All (λ q. q < length led.now) (listed led.now r) }
    requires there { region < length led.now }
    ensures { IfOk result (λ marks.
        AreMarked marks.items (linked (listed led.now) (length led.now) (region ∷ []))) }
{
    let count = led.len();
    let Ok(marks) = vec![in alloc; false; count] else {
        return Err(Memory);
    };
    let mut found = Found {
        marks,
        regions: Vec::new(alloc),
    };
    mark(&mut found, region)?;
    let mut done = 0;
    for _link in 0..count {
        done = mark_led(led, &mut found, done)?;
    }
    Ok(found.marks)
}

/// A mark for each region beneath one, and for that itself. It takes time linear in the objects and
/// the regions.
pub fn beneath(
    alloc: Global,
    book: &Book,
    store: &[ObjectRow],
    count: usize,
    region: u64,
) -> Result<Vec<bool>, Memory>
    requires classes { AreOfClasses book.now.program store.now }
    requires labels { LabelsFit count (store_of store.now) }
    requires there { region < count }
    ensures { IfOk result (λ marks. AreMarked marks.items
        (beneath (classes_of book.now.program) (store_of store.now) count (region ∷ []))) }
{
    let led = all_links(alloc, book, store, count)?;
    linked(alloc, &led, region)
}
