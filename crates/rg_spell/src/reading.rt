//! Parts that are read from the front of bytes: each with the bytes behind it
//! (docs/architecture.md, "Modules").

ghost use Rattle.std.specs.Prelude.{◌≡◌, false, true};
ghost use Rattle.std.specs.Int.{w32, w64};
ghost use Rattle.rg_spell.specs.Reading as reading;
ghost use Rattle.rg_spell.specs.Reading.{Finds, Gives, byte_at, number_at, signed_at};
ghost use Rattle.rg_spell.specs.Reading.{slot_at};
ghost use Rattle.rg_spell.specs.Reading.{bool_at, manager_at, cap_at, ref_at, ty_behind};
ghost use Rattle.rg_spell.specs.Reading.{ty_at, counted_at, many_at, members_at, shape_at};
ghost use Rattle.rg_spell.specs.Reading.{result_behind, result_at, head_at};

use crate::numbers::{bool_of, cap_of, manager_of};
use crate::refusal::Refusal;
use crate::rows::{Head, Shape};
use crate::tys::Tys;
use rg_base::{Cap, Manager, Ty};
use std::alloc::Global;

// the greatest slot that a module names
const MOST_SLOT: u32 = 256;

/// A byte.
pub fn take_byte(bytes: &[u8]) -> Option<(u8, &[u8])>
    ensures { Finds (λ x. (x.0, x.1.now)) result (byte_at bytes.now) }
{
    match bytes {
        [] => None,
        [first, rest @ ..] => Some((*first, rest)),
    }
}

/// A number of four bytes.
pub fn take_u32(bytes: &[u8]) -> Option<(u32, &[u8])>
    ensures { Finds (λ x. (x.0, x.1.now)) result (number_at w32 bytes.now) }
{
    if bytes.len() < 4 {
        return None;
    }
    let (front, rest) = bytes.split_at(4);
    let number = u32::from_be_bytes([front[0], front[1], front[2], front[3]]);
    Some((number, rest))
}

/// A number of eight bytes.
pub fn take_u64(bytes: &[u8]) -> Option<(u64, &[u8])>
    ensures { Finds (λ x. (x.0, x.1.now)) result (number_at w64 bytes.now) }
{
    if bytes.len() < 8 {
        return None;
    }
    let (front, rest) = bytes.split_at(8);
    let number = u64::from_be_bytes([
        front[0], front[1], front[2], front[3], front[4], front[5], front[6], front[7],
    ]);
    Some((number, rest))
}

/// A number with a sign.
#[tactic(auto, unfolding(crate::specs::Reading::signed_at))]
pub fn take_i64(bytes: &[u8]) -> Option<(i64, &[u8])>
    ensures { Finds (λ x. (x.0, x.1.now)) result (signed_at bytes.now) }
{
    let Some((number, rest)) = take_u64(bytes) else {
        return None;
    };
    Some((number.cast_signed(), rest))
}

/// A slot.
#[tactic(auto, unfolding(crate::specs::Reading::slot_at))]
pub(crate) fn take_slot(bytes: &[u8]) -> Option<(u32, &[u8])>
    ensures { Finds (λ x. (x.0, x.1.now)) result (slot_at bytes.now) }
{
    let Some((slot, rest)) = take_u32(bytes) else {
        return None;
    };
    if slot > MOST_SLOT {
        return None;
    }
    Some((slot, rest))
}

/// A truth value.
#[tactic(auto, unfolding(crate::specs::Reading::bool_at))]
pub fn take_bool(bytes: &[u8]) -> Option<(bool, &[u8])>
    ensures { Finds (λ x. (x.0, x.1.now)) result (bool_at bytes.now) }
{
    let Some((number, rest)) = take_byte(bytes) else {
        return None;
    };
    let Some(value) = bool_of(number) else {
        return None;
    };
    Some((value, rest))
}

/// A manager.
#[tactic(auto, unfolding(crate::specs::Reading::manager_at))]
pub fn take_manager(bytes: &[u8]) -> Option<(Manager, &[u8])>
    ensures { Finds (λ x. (x.0, x.1.now)) result (manager_at bytes.now) }
{
    let Some((number, rest)) = take_byte(bytes) else {
        return None;
    };
    let Some(manager) = manager_of(number) else {
        return None;
    };
    Some((manager, rest))
}

/// A capability.
#[tactic(auto, unfolding(crate::specs::Reading::cap_at))]
fn take_cap(bytes: &[u8]) -> Option<(Cap, &[u8])>
    ensures { Finds (λ x. (x.0, x.1.now)) result (cap_at bytes.now) }
{
    let Some((number, rest)) = take_byte(bytes) else {
        return None;
    };
    let Some(cap) = cap_of(number) else {
        return None;
    };
    Some((cap, rest))
}

// The type of a reference, behind its first byte.
#[tactic(auto, unfolding(crate::specs::Reading::ref_at))]
fn take_ref(number: u8, bytes: &[u8]) -> Option<(Ty, &[u8])>
    ensures { Finds (λ x. (x.0, x.1.now)) result (ref_at number bytes.now) }
{
    let Some(cap) = cap_of(number) else {
        return None;
    };
    let Some((class, rest)) = take_u32(bytes) else {
        return None;
    };
    Some((Ty::Ref { cap, class }, rest))
}

// A type, behind its first byte.
#[tactic(auto, unfolding(crate::specs::Reading::ty_behind))]
fn take_behind(number: u8, bytes: &[u8]) -> Option<(Ty, &[u8])>
    ensures { Finds (λ x. (x.0, x.1.now)) result (ty_behind number bytes.now) }
{
    if number == 0 {
        return Some((Ty::Int, bytes));
    }
    if number == 1 {
        return Some((Ty::Bool, bytes));
    }
    take_ref(number, bytes)
}

/// A type.
#[tactic(auto, unfolding(crate::specs::Reading::ty_at))]
pub(crate) fn take_type(bytes: &[u8]) -> Option<(Ty, &[u8])>
    ensures { Finds (λ x. (x.0, x.1.now)) result (ty_at bytes.now) }
{
    let Some((number, rest)) = take_byte(bytes) else {
        return None;
    };
    take_behind(number, rest)
}

// So many types.
fn take_many(alloc: Global, count: u32, bytes: &[u8]) -> Result<(Tys, &[u8]), Refusal>
    ensures { Gives (λ x. (x.0, x.1.now)) result (many_at ty_at count bytes.now) }
{
    let mut types = Tys::new(alloc);
    let mut rest = bytes;
    for _ in 0..count {
        let Some((ty, after)) = take_type(rest) else {
            return Err(Refusal::NotSpelt);
        };
        let Ok(()) = types.push(ty) else {
            return Err(Refusal::Memory);
        };
        rest = after;
    }
    Ok((types, rest))
}

/// A count of types, and the types.
#[tactic(auto, unfolding(crate::specs::Reading::counted_at))]
pub(crate) fn take_types(alloc: Global, bytes: &[u8]) -> Result<(Tys, &[u8]), Refusal>
    ensures { Gives (λ x. (x.0, x.1.now)) result (counted_at ty_at bytes.now) }
{
    let Some((count, rest)) = take_u32(bytes) else {
        return Err(Refusal::NotSpelt);
    };
    take_many(alloc, count, rest)
}

// An array class, behind its second byte.
#[tactic(auto, unfolding(crate::specs::Reading::members_at))]
fn take_array(alloc: Global, is_tmp: bool, bytes: &[u8]) -> Result<(Shape, &[u8]), Refusal>
    ensures { Gives (λ x. (x.0, x.1.now)) result (members_at is_tmp true bytes.now) }
{
    let Some((element, rest)) = take_type(bytes) else {
        return Err(Refusal::NotSpelt);
    };
    let shape = Shape {
        is_tmp,
        fields: Tys::new(alloc),
        element: Some(element),
    };
    Ok((shape, rest))
}

// Any other class, behind its second byte.
#[tactic(auto, unfolding(crate::specs::Reading::members_at))]
fn take_fields(alloc: Global, is_tmp: bool, bytes: &[u8]) -> Result<(Shape, &[u8]), Refusal>
    ensures { Gives (λ x. (x.0, x.1.now)) result (members_at is_tmp false bytes.now) }
{
    let (fields, rest) = match take_types(alloc, bytes) {
        Ok(pair) => pair,
        Err(e) => return Err(e),
    };
    let shape = Shape {
        is_tmp,
        fields,
        element: None,
    };
    Ok((shape, rest))
}

// A class.
#[tactic(auto, unfolding(crate::specs::Reading::shape_at))]
fn take_shape(alloc: Global, bytes: &[u8]) -> Result<(Shape, &[u8]), Refusal>
    ensures { Gives (λ x. (x.0, x.1.now)) result (shape_at bytes.now) }
{
    let Some((is_tmp, rest)) = take_bool(bytes) else {
        return Err(Refusal::NotSpelt);
    };
    let Some((is_array, rest)) = take_bool(rest) else {
        return Err(Refusal::NotSpelt);
    };
    if is_array {
        return take_array(alloc, is_tmp, rest);
    }
    take_fields(alloc, is_tmp, rest)
}

// So many classes.
fn take_many_shapes(alloc: Global, count: u32, bytes: &[u8]) -> Result<(Vec<Shape>, &[u8]), Refusal>
    ensures { Gives (λ x. (x.0.items, x.1.now)) result (many_at shape_at count bytes.now) }
{
    let mut shapes = Vec::new(alloc);
    let mut rest = bytes;
    for _ in 0..count {
        let (shape, after) = match take_shape(alloc, rest) {
            Ok(pair) => pair,
            Err(e) => return Err(e),
        };
        let Ok(()) = shapes.push(shape) else {
            return Err(Refusal::Memory);
        };
        rest = after;
    }
    Ok((shapes, rest))
}

/// A count of classes, and the classes.
#[tactic(auto, unfolding(crate::specs::Reading::counted_at))]
pub fn take_shapes(alloc: Global, bytes: &[u8]) -> Result<(Vec<Shape>, &[u8]), Refusal>
    ensures { Gives (λ x. (x.0.items, x.1.now)) result (counted_at shape_at bytes.now) }
{
    let Some((count, rest)) = take_u32(bytes) else {
        return Err(Refusal::NotSpelt);
    };
    take_many_shapes(alloc, count, rest)
}

// The result of a method, behind the byte that says whether there is one.
#[tactic(auto, unfolding(crate::specs::Reading::result_behind))]
fn take_result_behind(has: bool, bytes: &[u8]) -> Option<(Option<Ty>, &[u8])>
    ensures { Finds (λ x. (x.0, x.1.now)) result (result_behind has bytes.now) }
{
    if !has {
        return Some((None, bytes));
    }
    let Some((ty, rest)) = take_type(bytes) else {
        return None;
    };
    Some((Some(ty), rest))
}

// The result of a method.
#[tactic(auto, unfolding(crate::specs::Reading::result_at))]
fn take_result(bytes: &[u8]) -> Option<(Option<Ty>, &[u8])>
    ensures { Finds (λ x. (x.0, x.1.now)) result (result_at bytes.now) }
{
    let Some((has, rest)) = take_bool(bytes) else {
        return None;
    };
    take_result_behind(has, rest)
}

// The head of a method.
#[tactic(auto, unfolding(crate::specs::Reading::head_at))]
fn take_head(alloc: Global, bytes: &[u8]) -> Result<(Head, &[u8]), Refusal>
    ensures { Gives (λ x. (x.0, x.1.now)) result (head_at bytes.now) }
{
    let Some((class, rest)) = take_u32(bytes) else {
        return Err(Refusal::NotSpelt);
    };
    let Some((cap, rest)) = take_cap(rest) else {
        return Err(Refusal::NotSpelt);
    };
    let (params, rest) = match take_types(alloc, rest) {
        Ok(pair) => pair,
        Err(e) => return Err(e),
    };
    let Some((result, rest)) = take_result(rest) else {
        return Err(Refusal::NotSpelt);
    };
    let head = Head {
        class,
        cap,
        params,
        result,
    };
    Ok((head, rest))
}

// So many heads.
fn take_many_heads(alloc: Global, count: u32, bytes: &[u8]) -> Result<(Vec<Head>, &[u8]), Refusal>
    ensures { Gives (λ x. (x.0.items, x.1.now)) result (many_at head_at count bytes.now) }
{
    let mut heads = Vec::new(alloc);
    let mut rest = bytes;
    for _ in 0..count {
        let (head, after) = match take_head(alloc, rest) {
            Ok(pair) => pair,
            Err(e) => return Err(e),
        };
        let Ok(()) = heads.push(head) else {
            return Err(Refusal::Memory);
        };
        rest = after;
    }
    Ok((heads, rest))
}

/// A count of heads, and the heads.
#[tactic(auto, unfolding(crate::specs::Reading::counted_at))]
pub fn take_heads(alloc: Global, bytes: &[u8]) -> Result<(Vec<Head>, &[u8]), Refusal>
    ensures { Gives (λ x. (x.0.items, x.1.now)) result (counted_at head_at bytes.now) }
{
    let Some((count, rest)) = take_u32(bytes) else {
        return Err(Refusal::NotSpelt);
    };
    take_many_heads(alloc, count, rest)
}
