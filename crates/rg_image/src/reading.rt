//! A content that is read from bytes, part by part, each with the bytes behind it
//! (docs/architecture.md, "Images"). No count takes memory for more than the bytes can hold.

ghost use Rattle.std.specs.Prelude.{◌≡◌, ◌≤◌, ◌*◌, [], ◌∷◌, IfOk, take};
ghost use Rattle.rg_spell.specs.Reading.{Finds, Gives, manager_at, many_at};
ghost use Rattle.rg_image.specs.Inner.Reading.{count_at, counted_at};
ghost use Rattle.rg_image.specs.Inner.Reading.{int_at, truth_at, object_at, value_behind, value_at};
ghost use Rattle.rg_image.specs.Inner.Reading.{region_at, label_behind, label_at, cell_at};
ghost use Rattle.rg_image.specs.Inner.Reading.{with_values, behind};
ghost use Rattle.rg_image.specs.Inner.Reading.{cargo_at, held_at, content_behind, content_at};
ghost use Rattle.rg_image.specs.Inner.Reading.{magic_at, image_at};

use rg_base::{Label, Val};
use rg_cown::{Cargo, CargoCell, Fields, Packed};
use rg_spell::{Refusal, take_bool, take_byte, take_i64, take_manager, take_u32, take_u64};
use std::alloc::Global;

// the bytes of an object without fields that is frozen: its class, its label and a count
const LEAST_CELL: usize = 13;

// the most bytes of an object with three fields: its class, its label, a count and the values
const MOST_FEW: usize = 48;

// how many fields are read at once
const FEW: u64 = 3;

// A count of parts, each of at least one byte.
#[tactic(auto, unfolding(crate::specs::Inner::Reading::count_at))]
#[inline(always)]
fn take_count(bytes: &[u8]) -> Option<(u64, &[u8])>
    ensures { Finds (λ x. (x.0, x.1.now)) result (count_at bytes.now) }
{
    let Some((count, rest)) = take_u64(bytes) else {
        return None;
    };
    if count > rest.len() as u64 {
        return None;
    }
    Some((count, rest))
}

// A number, behind the byte that says so.
#[tactic(auto, unfolding(crate::specs::Inner::Reading::int_at))]
#[inline(always)]
fn take_int(bytes: &[u8]) -> Option<(Val, &[u8])>
    ensures { Finds (λ x. (x.0, x.1.now)) result (int_at bytes.now) }
{
    let Some((number, rest)) = take_i64(bytes) else {
        return None;
    };
    Some((Val::Int(number), rest))
}

// A truth value, behind the byte that says so.
#[tactic(auto, unfolding(crate::specs::Inner::Reading::truth_at))]
#[inline(always)]
fn take_truth(bytes: &[u8]) -> Option<(Val, &[u8])>
    ensures { Finds (λ x. (x.0, x.1.now)) result (truth_at bytes.now) }
{
    let Some((truth, rest)) = take_bool(bytes) else {
        return None;
    };
    Some((Val::Bool(truth), rest))
}

// A reference, behind the byte that says so.
#[tactic(auto, unfolding(crate::specs::Inner::Reading::object_at))]
#[inline(always)]
fn take_object(bytes: &[u8]) -> Option<(Val, &[u8])>
    ensures { Finds (λ x. (x.0, x.1.now)) result (object_at bytes.now) }
{
    let Some((object, rest)) = take_u64(bytes) else {
        return None;
    };
    Some((Val::Obj(object), rest))
}

// A value, behind its first byte.
#[tactic(auto, unfolding(crate::specs::Inner::Reading::value_behind))]
#[inline(always)]
fn take_behind(kind: u8, bytes: &[u8]) -> Option<(Val, &[u8])>
    ensures { Finds (λ x. (x.0, x.1.now)) result (value_behind kind bytes.now) }
{
    match kind {
        0 => Some((Val::Nil, bytes)),
        1 => take_int(bytes),
        2 => take_truth(bytes),
        3 => take_object(bytes),
        _ => None,
    }
}

// A value.
#[tactic(auto, unfolding(crate::specs::Inner::Reading::value_at))]
#[inline(always)]
fn take_value(bytes: &[u8]) -> Option<(Val, &[u8])>
    ensures { Finds (λ x. (x.0, x.1.now)) result (value_at bytes.now) }
{
    let Some((kind, rest)) = take_byte(bytes) else {
        return None;
    };
    take_behind(kind, rest)
}

// The label of an object of a region, behind the byte that says so.
#[tactic(auto, unfolding(crate::specs::Inner::Reading::region_at))]
#[inline(always)]
fn take_region(bytes: &[u8]) -> Option<(Label, &[u8])>
    ensures { Finds (λ x. (x.0, x.1.now)) result (region_at bytes.now) }
{
    let Some((region, rest)) = take_u64(bytes) else {
        return None;
    };
    Some((Label::Region(region), rest))
}

// A label, behind its first byte.
#[tactic(auto, unfolding(crate::specs::Inner::Reading::label_behind))]
#[inline(always)]
fn take_label_behind(kind: u8, bytes: &[u8]) -> Option<(Label, &[u8])>
    ensures { Finds (λ x. (x.0, x.1.now)) result (label_behind kind bytes.now) }
{
    match kind {
        0 => take_region(bytes),
        1 => Some((Label::Frozen, bytes)),
        _ => None,
    }
}

// A label.
#[tactic(auto, unfolding(crate::specs::Inner::Reading::label_at))]
#[inline(always)]
fn take_label(bytes: &[u8]) -> Option<(Label, &[u8])>
    ensures { Finds (λ x. (x.0, x.1.now)) result (label_at bytes.now) }
{
    let Some((kind, rest)) = take_byte(bytes) else {
        return None;
    };
    take_label_behind(kind, rest)
}

// So many values, into none.
#[inline(always)]
fn take_many_values<'a>(
    values: &mut Fields,
    count: u64,
    bytes: &'a [u8],
) -> Result<&'a [u8], Refusal>
    requires { values.old ≡ [] }
    ensures { Gives (λ rest. (values.new, rest.now)) result (many_at value_at count bytes.now) }
{
    let mut rest = bytes;
    for _ in 0..count {
        let Some((value, after)) = take_value(rest) else {
            return Err(Refusal::NotSpelt);
        };
        let Ok(()) = values.push(value) else {
            return Err(Refusal::Memory);
        };
        rest = after;
    }
    Ok(rest)
}

// A number as it stands in an object, behind the byte that says so.
#[tactic(auto, unfolding(crate::specs::Inner::Reading::int_at))]
#[inline(always)]
fn take_packed_int(bytes: &[u8]) -> Option<(Packed, &[u8])>
    ensures { Finds (λ x. (x.0, x.1.now)) result (int_at bytes.now) }
{
    let Some((number, rest)) = take_i64(bytes) else {
        return None;
    };
    Some((Packed::of(Val::Int(number)), rest))
}

// A truth value as it stands in an object, behind the byte that says so.
#[tactic(auto, unfolding(crate::specs::Inner::Reading::truth_at))]
#[inline(always)]
fn take_packed_truth(bytes: &[u8]) -> Option<(Packed, &[u8])>
    ensures { Finds (λ x. (x.0, x.1.now)) result (truth_at bytes.now) }
{
    let Some((truth, rest)) = take_bool(bytes) else {
        return None;
    };
    Some((Packed::of(Val::Bool(truth)), rest))
}

// A reference as it stands in an object, behind the byte that says so.
#[tactic(auto, unfolding(crate::specs::Inner::Reading::object_at))]
#[inline(always)]
fn take_packed_object(bytes: &[u8]) -> Option<(Packed, &[u8])>
    ensures { Finds (λ x. (x.0, x.1.now)) result (object_at bytes.now) }
{
    let Some((object, rest)) = take_u64(bytes) else {
        return None;
    };
    Some((Packed::of(Val::Obj(object)), rest))
}

// A value as it stands in an object, behind its first byte.
#[tactic(auto, unfolding(crate::specs::Inner::Reading::value_behind))]
#[inline(always)]
fn take_packed_behind(kind: u8, bytes: &[u8]) -> Option<(Packed, &[u8])>
    ensures { Finds (λ x. (x.0, x.1.now)) result (value_behind kind bytes.now) }
{
    match kind {
        0 => Some((Packed::of(Val::Nil), bytes)),
        1 => take_packed_int(bytes),
        2 => take_packed_truth(bytes),
        3 => take_packed_object(bytes),
        _ => None,
    }
}

// A value as it stands in an object.
#[tactic(auto, unfolding(crate::specs::Inner::Reading::value_at))]
#[inline(always)]
fn take_packed(bytes: &[u8]) -> Option<(Packed, &[u8])>
    ensures { Finds (λ x. (x.0, x.1.now)) result (value_at bytes.now) }
{
    let Some((kind, rest)) = take_byte(bytes) else {
        return None;
    };
    take_packed_behind(kind, rest)
}

// One value, or none and nil in its place.
#[inline(always)]
fn take_up_to_one(count: u64, bytes: &[u8]) -> Option<(Packed, &[u8])>
    requires { count ≤ 1 }
    ensures { Finds (λ x. (take count (x.0 ∷ []), x.1.now)) result
        (many_at value_at count bytes.now) }
{
    if count == 0 {
        return Some((Packed::of(Val::Nil), bytes));
    }
    let Some((a, rest)) = take_packed(bytes) else {
        return None;
    };
    Some((a, rest))
}

// Up to two values, with nil behind them.
#[inline(always)]
fn take_up_to_two(count: u64, bytes: &[u8]) -> Option<(Packed, Packed, &[u8])>
    requires { count ≤ 2 }
    ensures { Finds (λ x. (take count (x.0 ∷ x.1 ∷ []), x.2.now)) result
        (many_at value_at count bytes.now) }
{
    if count == 0 {
        return Some((Packed::of(Val::Nil), Packed::of(Val::Nil), bytes));
    }
    let Some((a, rest)) = take_packed(bytes) else {
        return None;
    };
    let Some((b, rest)) = take_up_to_one(count - 1, rest) else {
        return None;
    };
    Some((a, b, rest))
}

// Up to three values, with nil behind them.
#[inline(always)]
fn take_up_to_three(count: u64, bytes: &[u8]) -> Option<(Packed, Packed, Packed, &[u8])>
    requires { count ≤ 3 }
    ensures { Finds (λ x. (take count (x.0 ∷ x.1 ∷ x.2 ∷ []), x.3.now)) result
        (many_at value_at count bytes.now) }
{
    if count == 0 {
        return Some((
            Packed::of(Val::Nil),
            Packed::of(Val::Nil),
            Packed::of(Val::Nil),
            bytes,
        ));
    }
    let Some((a, rest)) = take_packed(bytes) else {
        return None;
    };
    let Some((b, c, rest)) = take_up_to_two(count - 1, rest) else {
        return None;
    };
    Some((a, b, c, rest))
}

// An object with so many values, behind those of a cargo.
#[inline(always)]
fn take_few<'a>(
    alloc: Global,
    cargo: &mut Cargo,
    class: u32,
    label: Label,
    count: u64,
    bytes: &'a [u8],
) -> Result<&'a [u8], Refusal>
    requires { count ≤ 3 }
    ensures read { Gives (λ rest. (cargo.new.cells, rest.now)) result
        (behind cargo.old.cells (with_values class label (many_at value_at count bytes.now))) }
    ensures managers { cargo.new.managers ≡ cargo.old.managers }
{
    let Some((a, b, c, rest)) = take_up_to_three(count, bytes) else {
        return Err(Refusal::NotSpelt);
    };
    let cell = CargoCell {
        class,
        label,
        fields: Fields::few(alloc, count as u8, a, b, c),
    };
    let Ok(()) = cargo.add_cell(cell) else {
        return Err(Refusal::Memory);
    };
    Ok(rest)
}

// The same, with any count of values.
#[inline(never)]
fn take_large<'a>(
    alloc: Global,
    cargo: &mut Cargo,
    class: u32,
    label: Label,
    count: u64,
    bytes: &'a [u8],
) -> Result<&'a [u8], Refusal>
    ensures read { Gives (λ rest. (cargo.new.cells, rest.now)) result
        (behind cargo.old.cells (with_values class label (many_at value_at count bytes.now))) }
    ensures managers { cargo.new.managers ≡ cargo.old.managers }
{
    let mut fields = Fields::new(alloc);
    let rest = match take_many_values(&mut fields, count, bytes) {
        Ok(rest) => rest,
        Err(e) => return Err(e),
    };
    let cell = CargoCell {
        class,
        label,
        fields,
    };
    let Ok(()) = cargo.add_cell(cell) else {
        return Err(Refusal::Memory);
    };
    Ok(rest)
}

// An object, behind those of a cargo.
#[tactic(auto, unfolding(crate::specs::Inner::Reading::cell_at, crate::specs::Inner::Reading::counted_at))]
#[inline(always)]
fn take_cell<'a>(alloc: Global, cargo: &mut Cargo, bytes: &'a [u8]) -> Result<&'a [u8], Refusal>
    ensures read { Gives (λ rest. (cargo.new.cells, rest.now)) result
        (behind cargo.old.cells (cell_at bytes.now)) }
    ensures managers { cargo.new.managers ≡ cargo.old.managers }
{
    let Some((class, rest)) = take_u32(bytes) else {
        return Err(Refusal::NotSpelt);
    };
    let Some((label, rest)) = take_label(rest) else {
        return Err(Refusal::NotSpelt);
    };
    let Some((count, rest)) = take_count(rest) else {
        return Err(Refusal::NotSpelt);
    };
    if count > FEW {
        return take_large(alloc, cargo, class, label, count, rest);
    }
    take_few(alloc, cargo, class, label, count, rest)
}

// The same near the end of the bytes.
#[inline(never)]
fn take_late_cell<'a>(
    alloc: Global,
    cargo: &mut Cargo,
    bytes: &'a [u8],
) -> Result<&'a [u8], Refusal>
    ensures read { Gives (λ rest. (cargo.new.cells, rest.now)) result
        (behind cargo.old.cells (cell_at bytes.now)) }
    ensures managers { cargo.new.managers ≡ cargo.old.managers }
{
    take_cell(alloc, cargo, bytes)
}

// The same. Where the bytes surely hold an object with few fields, one test of their length stands
// for those of its parts.
#[inline(always)]
fn take_next_cell<'a>(
    alloc: Global,
    cargo: &mut Cargo,
    bytes: &'a [u8],
) -> Result<&'a [u8], Refusal>
    ensures read { Gives (λ rest. (cargo.new.cells, rest.now)) result
        (behind cargo.old.cells (cell_at bytes.now)) }
    ensures managers { cargo.new.managers ≡ cargo.old.managers }
{
    if bytes.len() < MOST_FEW {
        return take_late_cell(alloc, cargo, bytes);
    }
    take_cell(alloc, cargo, bytes)
}

// So many managers, and no objects.
fn take_many_managers(alloc: Global, count: u64, bytes: &[u8]) -> Result<(Cargo, &[u8]), Refusal>
    ensures read { Gives (λ x. (x.0.managers, x.1.now)) result (many_at manager_at count bytes.now) }
    ensures cells { IfOk result (λ x. x.0.cells ≡ []) }
{
    let mut cargo = Cargo::new(alloc);
    let mut rest = bytes;
    for _ in 0..count {
        let Some((manager, after)) = take_manager(rest) else {
            return Err(Refusal::NotSpelt);
        };
        let Ok(()) = cargo.add_manager(manager) else {
            return Err(Refusal::Memory);
        };
        rest = after;
    }
    Ok((cargo, rest))
}

// A count of managers, and the managers, but no objects.
#[tactic(auto, unfolding(crate::specs::Inner::Reading::counted_at))]
fn take_managers(alloc: Global, bytes: &[u8]) -> Result<(Cargo, &[u8]), Refusal>
    ensures read { Gives (λ x. (x.0.managers, x.1.now)) result (counted_at manager_at bytes.now) }
    ensures cells { IfOk result (λ x. x.0.cells ≡ []) }
{
    let Some((count, rest)) = take_count(bytes) else {
        return Err(Refusal::NotSpelt);
    };
    take_many_managers(alloc, count, rest)
}

// For how many objects room is made: for so many, and for none where these bytes are too few for
// so many, which is found where they end.
fn room_for(count: u64, bytes: usize) -> usize
    ensures { result * 13 ≤ bytes }
{
    if count > (bytes / LEAST_CELL) as u64 {
        return 0;
    }
    count as usize
}

// So many objects, beside managers.
#[inline(never)]
fn take_many_cells(
    alloc: Global,
    managers: Cargo,
    count: u64,
    bytes: &[u8],
) -> Result<(Cargo, &[u8]), Refusal>
    requires { managers.cells ≡ [] }
    ensures read { Gives (λ x. (x.0.cells, x.1.now)) result (many_at cell_at count bytes.now) }
    ensures managers { IfOk result (λ x. x.0.managers ≡ managers.managers) }
{
    let mut cargo = managers;
    let Ok(()) = cargo.reserve_cells(room_for(count, bytes.len())) else {
        return Err(Refusal::Memory);
    };
    let mut rest = bytes;
    for _ in 0..count {
        rest = match take_next_cell(alloc, &mut cargo, rest) {
            Ok(after) => after,
            Err(e) => return Err(e),
        };
    }
    Ok((cargo, rest))
}

// A count of objects, and the objects, beside managers.
#[tactic(auto, unfolding(crate::specs::Inner::Reading::counted_at))]
fn take_cells(alloc: Global, managers: Cargo, bytes: &[u8]) -> Result<(Cargo, &[u8]), Refusal>
    requires { managers.cells ≡ [] }
    ensures read { Gives (λ x. (x.0.cells, x.1.now)) result (counted_at cell_at bytes.now) }
    ensures managers { IfOk result (λ x. x.0.managers ≡ managers.managers) }
{
    let Some((count, rest)) = take_count(bytes) else {
        return Err(Refusal::NotSpelt);
    };
    take_many_cells(alloc, managers, count, rest)
}

// Managers and objects.
#[tactic(auto, unfolding(crate::specs::Inner::Reading::cargo_at))]
fn take_cargo(alloc: Global, bytes: &[u8]) -> Result<(Cargo, &[u8]), Refusal>
    ensures { Gives (λ x. (x.0, x.1.now)) result (cargo_at bytes.now) }
{
    let (managers, rest) = match take_managers(alloc, bytes) {
        Ok(pair) => pair,
        Err(e) => return Err(e),
    };
    let (cargo, rest) = match take_cells(alloc, managers, rest) {
        Ok(pair) => pair,
        Err(e) => return Err(e),
    };
    Ok((cargo, rest))
}

// A content that is there, behind the byte that says so.
#[tactic(auto, unfolding(crate::specs::Inner::Reading::held_at))]
fn take_held(alloc: Global, bytes: &[u8]) -> Result<(Option<Cargo>, &[u8]), Refusal>
    ensures { Gives (λ x. (x.0, x.1.now)) result (held_at bytes.now) }
{
    let (cargo, rest) = match take_cargo(alloc, bytes) {
        Ok(pair) => pair,
        Err(e) => return Err(e),
    };
    Ok((Some(cargo), rest))
}

// A content, behind its first byte.
#[tactic(auto, unfolding(crate::specs::Inner::Reading::content_behind))]
fn take_content_behind(
    alloc: Global,
    kind: u8,
    bytes: &[u8],
) -> Result<(Option<Cargo>, &[u8]), Refusal>
    ensures { Gives (λ x. (x.0, x.1.now)) result (content_behind kind bytes.now) }
{
    match kind {
        0 => Ok((None, bytes)),
        1 => take_held(alloc, bytes),
        _ => Err(Refusal::NotSpelt),
    }
}

// A content.
#[tactic(auto, unfolding(crate::specs::Inner::Reading::content_at))]
fn take_content(alloc: Global, bytes: &[u8]) -> Result<(Option<Cargo>, &[u8]), Refusal>
    ensures { Gives (λ x. (x.0, x.1.now)) result (content_at bytes.now) }
{
    let Some((kind, rest)) = take_byte(bytes) else {
        return Err(Refusal::NotSpelt);
    };
    take_content_behind(alloc, kind, rest)
}

// The bytes behind `RGI1`.
fn take_magic(bytes: &[u8]) -> Option<&[u8]>
    ensures { Finds (λ rest. rest.now) result (magic_at bytes.now) }
{
    bytes.strip_prefix(b"RGI1")
}

/// The content that all of the bytes spell.
#[tactic(auto, unfolding(crate::specs::Inner::Reading::image_at))]
pub(crate) fn read(alloc: Global, bytes: &[u8]) -> Result<Option<Cargo>, Refusal>
    ensures { Gives (λ content. content) result (image_at bytes.now) }
{
    let Some(rest) = take_magic(bytes) else {
        return Err(Refusal::NotSpelt);
    };
    let (content, rest) = match take_content(alloc, rest) {
        Ok(pair) => pair,
        Err(e) => return Err(e),
    };
    if !rest.is_empty() {
        return Err(Refusal::NotSpelt);
    }
    Ok(content)
}
