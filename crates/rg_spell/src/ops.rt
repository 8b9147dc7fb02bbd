//! Instructions that are read from the front of bytes, each with its map
//! (docs/architecture.md, "Modules").

ghost use Rattle.std.specs.Prelude.{◌≡◌, Some};
ghost use Rattle.rg_code.specs.Operands.{listed};
ghost use Rattle.rg_code.specs.Places as places;
ghost use Rattle.rg_spell.specs.Reading.{Finds, Gives, operand_at, operands_at, op_at};
ghost use Rattle.rg_spell.specs.Reading.{map_at, row_at};

use crate::makings::{blank, with_operands};
use crate::reading::{
    take_bool, take_byte, take_i64, take_manager, take_slot, take_types, take_u32, take_u64,
};
use crate::refusal::Refusal;
use crate::tys::Tys;
use rg_code::{Op, Operand, Operands, operands_of};
use std::alloc::Global;

// An operand of the kind of a given one.
#[tactic(auto, unfolding(crate::specs::Reading::operand_at))]
fn take_operand(kind: Operand, bytes: &[u8]) -> Option<(Operand, &[u8])>
    ensures { Finds (λ x. (x.0, x.1.now)) result (operand_at kind bytes.now) }
{
    match kind {
        Operand::Line(_) => {
            let (line, rest) = take_u64(bytes)?;
            Some((Operand::Line(line), rest))
        }
        Operand::Int(_) => {
            let (value, rest) = take_i64(bytes)?;
            Some((Operand::Int(value), rest))
        }
        Operand::Bool(_) => {
            let (value, rest) = take_bool(bytes)?;
            Some((Operand::Bool(value), rest))
        }
        Operand::Slot(_) => {
            let (slot, rest) = take_slot(bytes)?;
            Some((Operand::Slot(slot), rest))
        }
        Operand::From(_) => {
            let (slot, rest) = take_slot(bytes)?;
            Some((Operand::From(slot), rest))
        }
        Operand::Field(_) => {
            let (index, rest) = take_u32(bytes)?;
            Some((Operand::Field(index), rest))
        }
        Operand::Class(_) => {
            let (class, rest) = take_u32(bytes)?;
            Some((Operand::Class(class), rest))
        }
        Operand::Method(_) => {
            let (method, rest) = take_u32(bytes)?;
            Some((Operand::Method(method), rest))
        }
        Operand::Address(_) => {
            let (to, rest) = take_u32(bytes)?;
            Some((Operand::Address(to as usize), rest))
        }
        Operand::Manager(_) => {
            let (manager, rest) = take_manager(bytes)?;
            Some((Operand::Manager(manager), rest))
        }
    }
}

// Operands of the kinds of given ones.
#[tactic(auto, unfolding(crate::specs::Reading::operands_at))]
fn take_operands(kinds: Operands, bytes: &[u8]) -> Option<(Operands, &[u8])>
    ensures { Finds (λ x. (listed x.0, x.1.now)) result (operands_at (listed kinds) bytes.now) }
{
    match kinds {
        Operands::Nothing => Some((Operands::Nothing, bytes)),
        Operands::One(a) => {
            let Some((a, rest)) = take_operand(a, bytes) else {
                return None;
            };
            Some((Operands::One(a), rest))
        }
        Operands::Two(a, b) => {
            let Some((a, rest)) = take_operand(a, bytes) else {
                return None;
            };
            let Some((b, rest)) = take_operand(b, rest) else {
                return None;
            };
            Some((Operands::Two(a, b), rest))
        }
    }
}

// An instruction.
#[tactic(auto, unfolding(crate::specs::Reading::op_at))]
fn take_op(bytes: &[u8]) -> Option<(Op, &[u8])>
    ensures { Finds (λ x. (x.0, x.1.now)) result (op_at bytes.now) }
{
    let Some((number, rest)) = take_byte(bytes) else {
        return None;
    };
    let Some(op) = blank(number) else {
        return None;
    };
    let Some((operands, rest)) = take_operands(operands_of(op), rest) else {
        return None;
    };
    Some((with_operands(op, operands), rest))
}

/// Whether an instruction is a mark.
pub(crate) fn is_mark(op: Op) -> bool
    ensures { result ≡ places.is_mark (Some op) }
{
    if let Op::Mark { .. } = op {
        return true;
    }
    false
}

// The map behind an instruction.
#[tactic(auto, unfolding(crate::specs::Reading::map_at))]
fn take_map(alloc: Global, mark: bool, bytes: &[u8]) -> Result<(Tys, &[u8]), Refusal>
    ensures { Gives (λ x. (x.0, x.1.now)) result (map_at mark bytes.now) }
{
    if !mark {
        return Ok((Tys::new(alloc), bytes));
    }
    take_types(alloc, bytes)
}

/// An instruction and its map.
#[tactic(auto, unfolding(crate::specs::Reading::row_at))]
pub fn take_row(alloc: Global, bytes: &[u8]) -> Result<(Op, Tys, &[u8]), Refusal>
    ensures { Gives (λ x. ((x.0, x.1), x.2.now)) result (row_at bytes.now) }
{
    let Some((op, rest)) = take_op(bytes) else {
        return Err(Refusal::NotSpelt);
    };
    let (map, rest) = match take_map(alloc, is_mark(op), rest) {
        Ok(pair) => pair,
        Err(e) => return Err(e),
    };
    Ok((op, map, rest))
}
