//! Values against the types of fields and elements (docs/architecture.md, "Cargo").

ghost use Rattle.std.specs.Prelude.{◌≡◌, ◌<◌, ◌==◌, All, Some, length, map, filter_map, slice_get};
ghost use Rattle.std.specs.Prelude.{◌&&◌, not, nat_le};
ghost use Rattle.std.specs.List.{list_all};
ghost use Rattle.rg_base.specs.declared.limits.TheConstants.{ARRAY_SIZE};
ghost use Rattle.rg_tree.specs.Rows.Tables.{Tables, name_at};
ghost use Rattle.rg_tree.specs.Rows.RowTrees as rows;
ghost use Rattle.rg_tree.specs.Rows.RowsExist.{IsNameIn, IsTypeIn};
ghost use Rattle.rg_rules.specs.Types as types;
ghost use Rattle.rg_rules.specs.Types.{field_member};
ghost use Rattle.rg_rules.specs.Headers as headers;
ghost use Rattle.rg_cown.specs.Cargo as cargo;
ghost use Rattle.rg_typed.specs.Typed as typed;

use rg_base::{ARRAY_SIZE, Cap, Label, Val};
use rg_cown::{CargoCell, Fields};
use rg_names::{Book, tables_are_of_good_headers};
use rg_tree::{MemberRow, TypeRow};

// Whether a label is that of a frozen object.
#[inline(always)]
fn is_frozen(label: Label) -> bool
    ensures { result ≡ cargo.is_frozen (Some label) }
{
    match label {
        Label::Region(_) | Label::Temp(_) => false,
        Label::Frozen => true,
    }
}

// Whether a field of a capability may lead there, in an object of a region.
#[inline(always)]
fn region_field_fits(region: u64, cap: Cap, to: Label) -> bool
    ensures { result ≡ typed.region_field_fits region cap to }
{
    match to {
        Label::Region(other) => match cap {
            Cap::Mut => other == region,
            Cap::Tmp | Cap::Paused | Cap::Imm => false,
            Cap::Iso => other != region,
        },
        Label::Temp(_) => false,
        Label::Frozen => match cap {
            Cap::Imm => true,
            Cap::Mut | Cap::Tmp | Cap::Paused | Cap::Iso => false,
        },
    }
}

// The same in an object with a label.
#[inline(always)]
fn field_fits(own: Label, cap: Cap, to: Label) -> bool
    ensures { result ≡ typed.field_fits own cap to }
{
    match own {
        Label::Region(region) => region_field_fits(region, cap, to),
        Label::Temp(_) => false,
        Label::Frozen => is_frozen(to),
    }
}

// The number of the class of a name, or the number of classes.
fn class_number(book: &Book, name: u32) -> u32
    requires { IsNameIn book.now.program name }
    ensures { let t = book.now.program in
        result ≡ types.class_number (rows.classes_of t) (name_at t name) }
{
    match book.class_of(name) {
        Some(class) => class,
        None => book.class_count(),
    }
}

// Whether a class is that of a name. Where it is there and has the name, nothing is looked up.
#[inline(always)]
fn is_class_of(book: &Book, class: u32, name: u32) -> bool
    requires { IsNameIn book.now.program name }
    ensures { let t = book.now.program in
        result ≡ (class == types.class_number (rows.classes_of t) (name_at t name)) }
{
    if class < book.class_count() {
        let _ = book.program();
        tables_are_of_good_headers();
        if book.is_same(book.class(class).name, name) {
            return true;
        }
    }
    class == class_number(book, name)
}

// Whether there is an object of the class of a name, to which a field of that capability may lead.
#[inline(always)]
fn object_fits(
    book: &Book,
    cells: &[CargoCell],
    own: Label,
    cap: Cap,
    name: u32,
    object: u64,
) -> bool
    requires { IsNameIn book.now.program name }
    ensures { let t = book.now.program in
        result ≡ typed.object_fits own cap (types.class_number (rows.classes_of t) (name_at t name))
        (slice_get cells.now object) }
{
    let Some(found) = cells.get(object as usize) else {
        return false;
    };
    if !is_class_of(book, found.class, name) {
        return false;
    }
    field_fits(own, cap, found.label)
}

// Whether a value meets a type that is written so, in an object with a label.
#[inline(always)]
fn value_fits(book: &Book, cells: &[CargoCell], own: Label, ty: TypeRow, value: Val) -> bool
    requires { IsTypeIn book.now.program ty }
    ensures { let t = book.now.program in
        result ≡ typed.value_fits cells.now own
        (types.type_of (rows.classes_of t) (rows.type_of t ty)) value }
{
    match ty {
        TypeRow::Int => match value {
            Val::Int(_) => true,
            Val::Nil | Val::Bool(_) | Val::Obj(_) => false,
        },
        TypeRow::Bool => match value {
            Val::Bool(_) => true,
            Val::Nil | Val::Int(_) | Val::Obj(_) => false,
        },
        TypeRow::Ref { cap, name } => match value {
            Val::Nil => true,
            Val::Int(_) | Val::Bool(_) => false,
            Val::Obj(object) => object_fits(book, cells, own, cap, name, object),
        },
    }
}

// Whether a type that is written is `iso`.
#[inline(always)]
fn is_iso(ty: TypeRow) -> bool
    ensures { (t : Tables) → result ≡ headers.is_iso_written (rows.type_of t ty) }
{
    match ty {
        TypeRow::Int | TypeRow::Bool => false,
        TypeRow::Ref { cap, .. } => cap == Cap::Iso,
    }
}

// The value at a place; None past the last one.
#[inline(always)]
fn value_at(values: &Fields, at: usize) -> Option<Val>
    ensures { result ≡ slice_get values.now at }
{
    values.get(at)
}

// How many values there are.
#[inline(always)]
fn count_of(values: &Fields) -> usize
    ensures { result ≡ length values.now }
{
    values.len()
}

/// Whether there are as many values as fields among members, and each meets its type.
#[inline(always)]
pub(crate) fn fields_fit(
    book: &Book,
    cells: &[CargoCell],
    own: Label,
    these: &[u32],
    values: &Fields,
) -> bool
    requires { All (λ k. k < length book.now.program.members) these.now }
    ensures { let t = book.now.program in
        result ≡ typed.fields_fit (rows.classes_of t) cells.now own
        (filter_map field_member (map (rows.member_at t) these.now)) values.now }
{
    let count = count_of(values);
    let mut at = 0;
    for k in these {
        match book.member(*k) {
            MemberRow::Field { ty, .. } => {
                let Some(value) = value_at(values, at) else {
                    return false;
                };
                if !value_fits(book, cells, own, ty, value) {
                    return false;
                }
                at += 1;
            }
            MemberRow::Method { .. } => {}
        }
    }
    at == count
}

/// Whether values may be the elements of an array: no more than there may be, and each of their
/// type, which isn't `iso`.
#[inline(never)]
pub(crate) fn elements_fit(
    book: &Book,
    cells: &[CargoCell],
    own: Label,
    element: TypeRow,
    values: &Fields,
) -> bool
    requires { IsTypeIn book.now.program element }
    ensures { let t = book.now.program in let written = rows.type_of t element in
        result ≡ (not (headers.is_iso_written written) && nat_le (length values.now) ARRAY_SIZE
        && list_all (typed.value_fits cells.now own (types.type_of (rows.classes_of t) written))
        values.now) }
{
    if is_iso(element) {
        return false;
    }
    if values.len() > ARRAY_SIZE as usize {
        return false;
    }
    for k in 0..values.len() {
        let value = values.at(k);
        if !value_fits(book, cells, own, element, value) {
            return false;
        }
    }
    true
}
