//! Links between regions, found in one pass over the objects: by declared types, where a field that
//! is `iso` owns what it leads to, or by labels alone (docs/language.md, "Steps").

ghost use Rattle.std.specs.Prelude.{◌++◌, ◌<◌, ◌∷◌, ◌≡◌, ◌≤◌, [], IfOk, List, OnOk, drop};
ghost use Rattle.std.specs.Prelude.{filter_map, length, option_to_list, ℕ};
ghost use Rattle.rg_tree.specs.Rows.RowTrees.{classes_of, member_at, type_of as written};
ghost use Rattle.rg_tree.specs.Rows.Tables.{Tables};
ghost use Rattle.rg_tree.specs.Tree.{Class, Member};
ghost use Rattle.rg_rules.specs.Capabilities.{is_iso};
ghost use Rattle.rg_rules.specs.Regions.{address, in_regions, led_from, owned, owned_in, region_at};
ghost use Rattle.rg_rules.specs.Types.{fields_of, type_of};
ghost use Rattle.rg_store.specs.Inner.Found.{AreLinks, links_in};
ghost use Rattle.rg_store.specs.Links.{listed};
ghost use Rattle.rg_store.specs.Regions.{LabelFits, LabelsFit};
ghost use Rattle.rg_store.specs.Shown.{AreOfClasses, seen_of, store_of};

use crate::labels::{region, region_led};
use crate::objects::ObjectRow;
use rg_base::{Cap, Memory, Val};
use rg_names::Book;
use rg_tree::{MemberRow, TypeRow};
use std::alloc::Global;

/// Whether a written type is `iso`.
fn is_iso_row(ty: TypeRow) -> bool
    ensures { (t : Tables) (classes : List Class) →
        result ≡ is_iso (type_of classes (written t ty)) }
{
    match ty {
        TypeRow::Ref { cap, .. } => match cap {
            Cap::Iso => true,
            Cap::Mut | Cap::Tmp | Cap::Paused | Cap::Imm => false,
        },
        TypeRow::Int | TypeRow::Bool => false,
    }
}

/// Adds the region to which a value leads, where it leads to one.
fn add_led(store: &[ObjectRow], links: &mut Vec<u64>, value: Val) -> Result<(), Memory>
    ensures { OnOk result (links.new.items ≡ links.old.items ++ filter_map
        (region_at (store_of store.now)) (option_to_list (address value))) }
{
    let Some(region) = region_led(store, value) else {
        return Ok(());
    };
    let Ok(()) = links.push(region) else {
        return Err(Memory);
    };
    Ok(())
}

/// Adds the region to which the value of a field leads, where the field owns it.
fn add_link(
    store: &[ObjectRow],
    links: &mut Vec<u64>,
    ty: TypeRow,
    value: Val,
) -> Result<(), Memory>
    ensures { OnOk result ((t : Tables) (classes : List Class) →
        links.new.items ≡ links.old.items ++ filter_map (region_at (store_of store.now))
        (option_to_list (owned (type_of classes (written t ty)) value))) }
{
    if !is_iso_row(ty) {
        return Ok(());
    }
    add_led(store, links, value)?;
    Ok(())
}

/// Adds the region to which a member leads, where it is a field that owns it. Before it are the
/// fields of so many values, and with it those of as many as the answer.
fn add_member(
    book: &Book,
    store: &[ObjectRow],
    values: &[Val],
    links: &mut Vec<u64>,
    member: u32,
    before: usize,
) -> Result<usize, Memory>
    requires member { member < length book.now.program.members }
    requires before { before ≤ length values.now }
    ensures within { IfOk result (λ n. n ≤ length values.now) }
    ensures added { IfOk result (λ n. (rest : List Member) → links.new.items
        ++ links_in book.now.program (store_of store.now) rest (drop n values.now)
        ≡ links.old.items ++ links_in book.now.program (store_of store.now)
        (member_at book.now.program member ∷ rest) (drop before values.now)) }
{
    match book.member(member) {
        MemberRow::Field { ty, .. } => {
            if before == values.len() {
                return Ok(before);
            }
            add_link(store, links, ty, values[before])?;
            Ok(before + 1)
        }
        MemberRow::Method { .. } => Ok(before),
    }
}

/// Adds the regions to which owner references in an object lead.
fn add_links(
    book: &Book,
    store: &[ObjectRow],
    object: &ObjectRow,
    links: &mut Vec<u64>,
) -> Result<(), Memory>
    requires class { object.now.class < length (classes_of book.now.program) }
    ensures { OnOk result (let classes = classes_of book.now.program in
        links.new.items ≡ links.old.items ++ filter_map (region_at (store_of store.now))
        (owned_in classes (fields_of classes object.now.class) object.now.fields.items)) }
{
    let row = book.class(object.class);
    let numbers = book.members_of(row);
    let mut before = 0;
    for member in numbers {
        before = add_member(book, store, &object.fields, links, *member, before)?;
    }
    Ok(())
}

/// Adds the regions to which owner references in an object lead to the list of its own region.
fn add_object(
    book: &Book,
    store: &[ObjectRow],
    object: &ObjectRow,
    led: &mut Vec<Vec<u64>>,
) -> Result<(), Memory>
    requires class { object.now.class < length (classes_of book.now.program) }
    requires label { LabelFits (length led.old.items) object.now.label }
    ensures count { length led.new.items ≡ length led.old.items }
    ensures added { OnOk result ((r : ℕ) → listed led.new.items r ≡ listed led.old.items r
        ++ led_from (classes_of book.now.program) (store_of store.now) (in_regions (r ∷ []))
        (seen_of object.now ∷ [])) }
{
    let Some(region) = region(object.label) else {
        return Ok(());
    };
    let links = &mut led[region as usize];
    add_links(book, store, object, links)?;
    Ok(())
}

/// So many empty lists.
fn empty_lists(alloc: Global, count: usize) -> Result<Vec<Vec<u64>>, Memory>
    ensures count { IfOk result (λ lists. length lists.items ≡ count) }
    ensures empty { IfOk result (λ lists. (r : ℕ) → listed lists.items r ≡ []) }
{
    let mut lists = Vec::new(alloc);
    for _list in 0..count {
        let Ok(()) = lists.push(Vec::new(alloc)) else {
            return Err(Memory);
        };
    }
    Ok(lists)
}

/// For each region, those to which owner references lead from it.
pub(crate) fn all_links(
    alloc: Global,
    book: &Book,
    store: &[ObjectRow],
    count: usize,
) -> Result<Vec<Vec<u64>>, Memory>
    requires classes { AreOfClasses book.now.program store.now }
    requires labels { LabelsFit count (store_of store.now) }
    ensures { IfOk result (λ led.
        AreLinks (classes_of book.now.program) (store_of store.now) count led.items) }
{
    let mut led = empty_lists(alloc, count)?;
    for object in store {
        add_object(book, store, object, &mut led)?;
    }
    Ok(led)
}
