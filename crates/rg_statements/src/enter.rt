//! The steps of `enter x as z` and `enter q.f as z` (docs/language.md, "Steps").

ghost use Rattle.std.specs.Prelude.{◌+◌, ◌<◌, ◌^◌, ◌∷◌, ◌≡◌, ◌≤◌, IfSome, List, Some, length};
ghost use Rattle.std.specs.Prelude.{option_map, slice_get, unwrap_or, vec_capacity, ℕ};
ghost use Rattle.rg_base.specs.declared.object.Seen.{Seen};
ghost use Rattle.rg_tree.specs.Rows.RowTrees.{block_of, classes_of, path_of};
ghost use Rattle.rg_tree.specs.Rows.RowsExist.{IsBlockIn, IsNameIn, IsPathIn};
ghost use Rattle.rg_tree.specs.Rows.Tables.{Tables, name_at};
ghost use Rattle.rg_tree.specs.Tree.{enter};
ghost use Rattle.rg_rules.specs.Items.{Item, leave_of};
ghost use Rattle.rg_rules.specs.Steps.{with_window};
ghost use Rattle.rg_rules.specs.Types.{field_place, fields_of};
ghost use Rattle.rg_store.specs.Regions.{LabelsFit};
ghost use Rattle.rg_store.specs.Shown.{store_of};
ghost use Rattle.rg_values.specs.Fits.{PartsFit};
ghost use Rattle.rg_values.specs.Steps.{Makes, Stands};
ghost use Rattle.rg_statements.specs.Inner.Windows.{BridgeIs, HasWindowRoom, OwnerIs};
ghost use Rattle.rg_values.specs.Kept.{ItemFits, ItemsFit, kept_of, plain_of, put_row, shown};

use rg_base::{Cap, Memory, Place, Ty, Val};
use rg_names::Book;
use rg_store::{ObjectRow, field_value, object_place, region};
use rg_tree::{Path, Span};
use rg_values::{
    At, ItemRow, LocalRow, Parts, Refusal, Spot, WindowRow, advance, place, put_block, spot_of,
    variable,
};

/// The place of an owner reference, and what it holds.
#[derive(Clone, Copy)]
pub(crate) struct Owner {
    pub(crate) place: Place,
    pub(crate) bridge: Val,
}

/// The class of a bridge, and its region.
#[derive(Clone, Copy)]
pub(crate) struct Bridge {
    pub(crate) class: u32,
    pub(crate) region: u64,
}

/// What an `enter` says round its block: its line, `q`, the name of the bridge and that of
/// `giving`.
#[derive(Clone, Copy)]
pub struct Entrance {
    pub line: u64,
    pub path: Path,
    pub name: u32,
    pub giving: Option<u32>,
}

/// The place of a field among those of its class; one that isn't there has the first place.
fn field_index(book: &Book, class: u32, name: u32) -> u32
    requires class { class < length (classes_of book.now.program) }
    requires name { IsNameIn book.now.program name }
    ensures { result ≡ unwrap_or (field_place (fields_of (classes_of book.now.program) class)
        (name_at book.now.program name)) 0 }
{
    match book.field(class, name) {
        Some(field) => field.index,
        None => 0,
    }
}

/// The owner that a path names.
fn owner_of(book: &Book, m: &Parts, path: Path) -> Result<Owner, Refusal>
    requires fit { PartsFit book.now.program m.now }
    requires path { IsPathIn book.now.program path }
    ensures { OwnerIs book.now.program (kept_of m.now) path result }
{
    match spot_of(book, &m.store, &m.frame.locals, path) {
        Ok(Spot::Variable(name)) => {
            let slot = place(book, &m.frame.locals, name);
            if slot > u32::MAX as usize {
                return Err(Refusal::Memory);
            }
            Ok(Owner {
                place: Place::Var {
                    frame: m.below.len() as u64,
                    slot: slot as u32,
                },
                bridge: variable(book, &m.frame.locals, name),
            })
        }
        Ok(Spot::Field { place, name }) => {
            let object = &m.store[place];
            Ok(Owner {
                place: Place::Field {
                    serial: place as u64,
                    index: field_index(book, object.class, name),
                },
                bridge: field_value(book, object, name),
            })
        }
        Err(kind) => Err(Refusal::Trap(kind)),
    }
}

/// The end of the block of an `enter` of a line, at which so many variables stay.
fn leave_row(line: u64, kept: usize, giving: Option<u32>) -> ItemRow
    ensures item { (t : Tables) (below : List Item) → put_row t result below
        ≡ leave_of line kept (option_map (name_at t) giving) ∷ below }
    ensures fit { (t : Tables) → IfSome giving (IsNameIn t) → ItemFits t result }
{
    match giving {
        None => ItemRow::LeaveAt(kept),
        Some(name) => ItemRow::LeaveGiving { line, kept, name },
    }
}

/// Puts the block of an `enter` in front, with the row at its end.
fn open_entered(book: &Book, items: &mut Vec<ItemRow>, leave: ItemRow, body: Span)
    requires room { length items.old.items + 2 ≤ vec_capacity items.old }
    requires leave { ItemFits book.now.program leave }
    requires body { IsBlockIn book.now.program body }
    requires fit { ItemsFit book.now.program items.old.items }
    ensures shown { shown book.now.program items.new.items ≡ put_row book.now.program (ItemRow.Rest
        body) (put_row book.now.program leave (shown book.now.program items.old.items)) }
    ensures fit { ItemsFit book.now.program items.new.items }
{
    items.push_reserved(leave);
    put_block(book, items, body);
}

/// Opens a window onto a region, with a variable for its bridge and the items of the block.
fn open_window(
    book: &Book,
    m: &mut Parts,
    owner: Owner,
    bridge: Bridge,
    entrance: Entrance,
    body: Span,
)
    requires fit { PartsFit book.now.program m.old }
    requires rooms { HasWindowRoom m.old }
    requires made { m.old.windows_made + 1 < 2 ^ 64 }
    requires region { bridge.region < length m.old.managers.items }
    requires name { IsNameIn book.now.program entrance.name }
    requires giving { IfSome entrance.giving (IsNameIn book.now.program) }
    requires body { IsBlockIn book.now.program body }
    ensures opened { (input : List ℕ) → plain_of book.now.program (kept_of m.new) input
        ≡ with_window (plain_of book.now.program (kept_of m.old) input) owner.place
        (name_at book.now.program entrance.name) (block_of book.now.program body)
        (λ kept. leave_of entrance.line kept
        (option_map (name_at book.now.program) entrance.giving))
        owner.bridge bridge.class (Some bridge.region) }
    ensures fit { PartsFit book.now.program m.new }
{
    let kept = m.frame.locals.len();
    let leave = leave_row(entrance.line, kept, entrance.giving);
    open_entered(book, &mut m.items, leave, body);
    m.outer.push_reserved(m.window);
    m.window = WindowRow {
        number: m.windows_made,
        region: bridge.region,
        owner: Some(owner.place),
        base_frame: m.below.len(),
        base_place: kept,
    };
    m.windows_made += 1;
    m.frame.locals.push_reserved(LocalRow {
        name: Some(entrance.name),
        ty: Ty::Ref {
            cap: Cap::Mut,
            class: bridge.class,
        },
        value: owner.bridge,
    });
}

/// The bridge at a place, if it lies in a region.
fn bridge_at(store: &[ObjectRow], place: usize) -> Option<Bridge>
    requires { place < length store.now }
    ensures bridge { (o : Seen) → slice_get (store_of store.now) place ≡ Some o →
        BridgeIs o result }
    ensures region { IfSome result (λ b. (count : ℕ) → LabelsFit count (store_of store.now) →
        b.region < count) }
{
    let object = &store[place];
    match region(object.label) {
        Some(region) => Some(Bridge {
            class: object.class,
            region,
        }),
        None => None,
    }
}

/// Opens the region of the object that an owner leads to. What lies in no region isn't entered.
pub fn enter_step(
    book: &Book,
    m: &mut Parts,
    at: At,
    entrance: Entrance,
    body: Span,
) -> Result<(), Refusal>
    requires stands { let t = book.now.program in Stands t m.old at
        (enter (path_of t entrance.path) (name_at t entrance.name) (block_of t body)
        (option_map (name_at t) entrance.giving)) }
    requires line { entrance.line ≡ at.line }
    requires path { IsPathIn book.now.program entrance.path }
    requires name { IsNameIn book.now.program entrance.name }
    requires giving { IfSome entrance.giving (IsNameIn book.now.program) }
    requires body { IsBlockIn book.now.program body }
    ensures step { Makes book.now.program (kept_of m.old) (kept_of m.new) at.line result }
    ensures fit { PartsFit book.now.program m.new }
{
    let owner = owner_of(book, m, entrance.path)?;
    let place = object_place(&m.store, owner.bridge)?;
    let Some(bridge) = bridge_at(&m.store, place) else {
        advance(book, &mut m.items, at.span, at.number);
        return Ok(());
    };
    if m.windows_made == u64::MAX {
        return Err(Refusal::Memory);
    }
    m.outer.reserve(1)?;
    m.frame.locals.reserve(1)?;
    m.items.reserve(2)?;
    advance(book, &mut m.items, at.span, at.number);
    open_window(book, m, owner, bridge, entrance, body);
    Ok(())
}
