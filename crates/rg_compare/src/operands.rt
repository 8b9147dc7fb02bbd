//! Whether two instructions are the same (docs/architecture.md, "Modules").

ghost use Rattle.std.specs.Prelude.{◌≡◌};
ghost use Rattle.rg_code.specs.Operands.{listed};
ghost use Rattle.rg_code.specs.declared.operands.Operand.TheVariants as is;
ghost use Rattle.rg_compare.specs.Telling.{TellsSame};

use rg_base::Manager;
use rg_code::{Op, Operand, Operands, number_of, operands_of};

// Whether an operand is this line.
fn is_line(operand: Operand, line: u64) -> bool
    ensures { TellsSame result (is.Line line) operand }
{
    let Operand::Line(found) = operand else {
        return false;
    };
    if found != line {
        return false;
    }
    true
}

// Whether an operand is this number that a program computes with.
fn is_int(operand: Operand, value: i64) -> bool
    ensures { TellsSame result (is.Int value) operand }
{
    let Operand::Int(found) = operand else {
        return false;
    };
    if found != value {
        return false;
    }
    true
}

// Whether an operand is this truth value.
fn is_bool(operand: Operand, truth: bool) -> bool
    ensures { TellsSame result (is.Bool truth) operand }
{
    let Operand::Bool(found) = operand else {
        return false;
    };
    if found != truth {
        return false;
    }
    true
}

// Whether an operand is this slot.
fn is_slot(operand: Operand, slot: u32) -> bool
    ensures { TellsSame result (is.Slot slot) operand }
{
    let Operand::Slot(found) = operand else {
        return false;
    };
    if found != slot {
        return false;
    }
    true
}

// Whether an operand is this slot from which on slots end.
fn is_from(operand: Operand, slot: u32) -> bool
    ensures { TellsSame result (is.From slot) operand }
{
    let Operand::From(found) = operand else {
        return false;
    };
    if found != slot {
        return false;
    }
    true
}

// Whether an operand is this field.
fn is_field(operand: Operand, index: u32) -> bool
    ensures { TellsSame result (is.Field index) operand }
{
    let Operand::Field(found) = operand else {
        return false;
    };
    if found != index {
        return false;
    }
    true
}

// Whether an operand is this class.
fn is_class(operand: Operand, class: u32) -> bool
    ensures { TellsSame result (is.Class class) operand }
{
    let Operand::Class(found) = operand else {
        return false;
    };
    if found != class {
        return false;
    }
    true
}

// Whether an operand is this method.
fn is_method(operand: Operand, method: u32) -> bool
    ensures { TellsSame result (is.Method method) operand }
{
    let Operand::Method(found) = operand else {
        return false;
    };
    if found != method {
        return false;
    }
    true
}

// Whether an operand is this address.
fn is_address(operand: Operand, to: usize) -> bool
    ensures { TellsSame result (is.Address to) operand }
{
    let Operand::Address(found) = operand else {
        return false;
    };
    if found != to {
        return false;
    }
    true
}

// Whether an operand is this manager.
fn is_manager(operand: Operand, manager: Manager) -> bool
    ensures { TellsSame result (is.Manager manager) operand }
{
    let Operand::Manager(found) = operand else {
        return false;
    };
    if found != manager {
        return false;
    }
    true
}

// Whether two operands are the same.
fn same_operand(one: Operand, other: Operand) -> bool
    ensures { TellsSame result one other }
{
    match one {
        Operand::Line(line) => is_line(other, line),
        Operand::Int(value) => is_int(other, value),
        Operand::Bool(truth) => is_bool(other, truth),
        Operand::Slot(slot) => is_slot(other, slot),
        Operand::From(slot) => is_from(other, slot),
        Operand::Field(index) => is_field(other, index),
        Operand::Class(class) => is_class(other, class),
        Operand::Method(method) => is_method(other, method),
        Operand::Address(to) => is_address(other, to),
        Operand::Manager(manager) => is_manager(other, manager),
    }
}

// Whether two pairs of operands are the same.
fn same_pair(one: (Operand, Operand), other: (Operand, Operand)) -> bool
    ensures { TellsSame result one other }
{
    if !same_operand(one.0, other.0) {
        return false;
    }
    same_operand(one.1, other.1)
}

// Whether the operands of two instructions are the same.
fn same_operands(one: Operands, other: Operands) -> bool
    ensures { TellsSame result (listed one) (listed other) }
{
    match (one, other) {
        (Operands::Nothing, Operands::Nothing) => true,
        (Operands::One(a), Operands::One(b)) => same_operand(a, b),
        (Operands::Two(a, b), Operands::Two(c, d)) => same_pair((a, b), (c, d)),
        (Operands::Nothing, Operands::One(_) | Operands::Two(_, _)) => false,
        (Operands::One(_), Operands::Nothing | Operands::Two(_, _)) => false,
        (Operands::Two(_, _), Operands::Nothing | Operands::One(_)) => false,
    }
}

/// Whether two instructions are the same.
pub(crate) fn same_op(one: Op, other: Op) -> bool
    ensures { TellsSame result one other }
{
    if number_of(one) != number_of(other) {
        return false;
    }
    same_operands(operands_of(one), operands_of(other))
}
