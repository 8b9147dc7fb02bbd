//! What expressions use up, found along their instructions (docs/architecture.md, "Modules").

ghost use Rattle.std.specs.Prelude.{◌≡◌, ◌-◌};
ghost use Rattle.rg_rules.specs.Capabilities as capabilities;
ghost use Rattle.rg_verify_expressions.specs.Parts as parts;
ghost use Rattle.rg_verify_expressions.specs.Blocks.{sign, cleared};
ghost use Rattle.rg_raise.specs.Uses as along;
ghost use Rattle.rg_raise.specs.Uses.{goes_by, value_by, ends_by, uses};

use crate::said::Stretch;
use crate::signs::clear_at;
use crate::types::type_at;
use rg_base::{Cap, Ty};
use rg_code::CodeList;
use rg_verify_expressions::{Part, part_of};

/// Whether a type is `iso`.
pub(crate) fn is_iso(ty: Ty) -> bool
    ensures { result ≡ capabilities.is_iso ty }
{
    match ty {
        Ty::Int | Ty::Bool => false,
        Ty::Ref { cap, class: _ } => match cap {
            Cap::Iso => true,
            Cap::Mut | Cap::Tmp | Cap::Paused | Cap::Imm => false,
        },
    }
}

// What the instruction at an address is in an expression.
fn part_at(code: &CodeList, at: usize) -> Option<Part>
    ensures { result ≡ sign parts.part_of code.now.ops at }
{
    if at < code.len() {
        return part_of(code.get(at));
    }
    None
}

// Whether what stands in front goes on with an instruction.
fn goes_on(part: Option<Part>) -> bool
    ensures { result ≡ goes_by part }
{
    match part {
        Some(Part::Field { .. }) | Some(Part::IsNil) | Some(Part::Size) => true,
        Some(Part::Check) | Some(Part::Element) => true,
        Some(Part::Int { .. }) | Some(Part::Bool { .. }) | Some(Part::Nil) => false,
        Some(Part::Load { .. }) | Some(Part::Bound) | Some(Part::Neg) | Some(Part::Not) => false,
        Some(Part::Operator { .. }) | Some(Part::Between { .. }) | None => false,
    }
}

// The slot of a variable that is a value, by whether its path goes on.
fn value_of(part: Option<Part>, goes: bool) -> Option<u32>
    ensures { result ≡ value_by part goes }
{
    if goes {
        return None;
    }
    let Some(Part::Load { slot }) = part else {
        return None;
    };
    Some(slot)
}

// Whether a place ends with an instruction, by whether it goes on.
fn ends_with(part: Option<Part>, goes: bool) -> bool
    ensures { result ≡ ends_by part goes }
{
    if goes {
        return false;
    }
    if let Some(Part::Bound) = part {
        return true;
    }
    false
}

// The slot that an instruction uses up, with that of the next one.
fn use_at(code: &CodeList, types: &Vec<Ty>, at: usize, next: usize) -> Option<u32>
    ensures { result ≡ along.use_at types.now.items code.now.ops at next }
{
    let goes = goes_on(part_at(code, next));
    let slot = value_of(part_at(code, at), goes)?;
    if is_iso(type_at(types, slot)) {
        return Some(slot);
    }
    None
}

/// The address behind what clears, from an address on, the slots that a stretch of code uses up.
pub fn behind_uses(
    code: &CodeList,
    types: &Vec<Ty>,
    stretch: Stretch,
    clears: usize,
) -> Option<usize>
    ensures { result ≡ cleared code.now.ops
        (uses types.now.items code.now.ops (stretch.end - stretch.from) stretch.from) clears }
{
    let mut at = stretch.from;
    let mut to = clears;
    while at < stretch.end {
        let next = at + 1;
        if let Some(slot) = use_at(code, types, at, next) {
            if clear_at(code, to)? != slot {
                return None;
            }
            to += 1;
        }
        at = next;
    }
    Some(to)
}

// Whether a place ends with the instruction at an address, with the next one.
fn ends_at(code: &CodeList, at: usize, next: usize) -> bool
    ensures { result ≡ along.ends_at code.now.ops at next }
{
    let goes = goes_on(part_at(code, next));
    ends_with(part_at(code, at), goes)
}

/// The address behind the first place that ends in a stretch of code.
pub(crate) fn behind_place(code: &CodeList, stretch: Stretch) -> usize
    ensures { result ≡ along.behind_place code.now.ops (stretch.end - stretch.from) stretch.from }
{
    let mut at = stretch.from;
    while at < stretch.end {
        let next = at + 1;
        if ends_at(code, at, next) {
            return next;
        }
        at = next;
    }
    at
}
