//! Numbers that objects and regions have as they are mentioned (docs/architecture.md, "Images").
//! Number 0 is given from the start, so the last number that was given is kept.

ghost use Rattle.std.specs.Prelude.{◌≡◌, suc, drop, option_map};
ghost use Rattle.rg_cown.specs.Cargo as cargo;

use rg_base::{Label, Val};
use rg_cown::Fields;

// The last number that is given behind a number that is named; none where one is passed over.
#[inline(always)]
fn named(last: u64, number: u64) -> Option<u64>
    ensures { option_map suc result ≡ cargo.named (suc last) number }
{
    let Some(before) = number.checked_sub(1) else {
        return Some(last);
    };
    if before > last {
        return None;
    }
    if before < last {
        return Some(last);
    }
    Some(number)
}

// The same behind a value.
#[inline(always)]
fn named_by(last: u64, value: Val) -> Option<u64>
    ensures { option_map suc result ≡ cargo.named_by (suc last) value }
{
    match value {
        Val::Nil | Val::Int(_) | Val::Bool(_) => Some(last),
        Val::Obj(object) => named(last, object),
    }
}

// The same behind the fields of an object from the fourth on.
#[inline(never)]
fn named_from_fourth(given: u64, fields: &Fields) -> Option<u64>
    ensures { option_map suc result ≡ cargo.named_in (suc given) (drop 3 fields.now) }
{
    let mut last = given;
    for k in 3..fields.len() {
        let value = fields.at(k);
        let Some(next) = named_by(last, value) else {
            return None;
        };
        last = next;
    }
    Some(last)
}

// The same from the third on.
#[inline(always)]
fn named_from_third(given: u64, fields: &Fields) -> Option<u64>
    ensures { option_map suc result ≡ cargo.named_in (suc given) (drop 2 fields.now) }
{
    let Some(value) = fields.get(2) else {
        return Some(given);
    };
    let Some(last) = named_by(given, value) else {
        return None;
    };
    if fields.len() <= 3 {
        return Some(last);
    }
    named_from_fourth(last, fields)
}

// The same from the second on.
#[inline(always)]
fn named_from_second(given: u64, fields: &Fields) -> Option<u64>
    ensures { option_map suc result ≡ cargo.named_in (suc given) (drop 1 fields.now) }
{
    let Some(value) = fields.get(1) else {
        return Some(given);
    };
    let Some(last) = named_by(given, value) else {
        return None;
    };
    named_from_third(last, fields)
}

/// The same behind the fields of an object.
#[inline(always)]
pub(crate) fn named_in(given: u64, fields: &Fields) -> Option<u64>
    ensures { option_map suc result ≡ cargo.named_in (suc given) fields.now }
{
    let Some(value) = fields.get(0) else {
        return Some(given);
    };
    let Some(last) = named_by(given, value) else {
        return None;
    };
    named_from_second(last, fields)
}

/// The last region that is numbered behind a label.
#[inline(always)]
pub(crate) fn region_named(last: u64, label: Label) -> Option<u64>
    ensures { option_map suc result ≡ cargo.region_named (suc last) label }
{
    match label {
        Label::Region(region) => named(last, region),
        Label::Temp(_) => None,
        Label::Frozen => Some(last),
    }
}
