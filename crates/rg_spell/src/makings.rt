//! An instruction from its number and its operands (docs/architecture.md, "Modules").

ghost use Rattle.std.specs.Prelude.{◌≡◌, slice_get};
ghost use Rattle.rg_code.specs.Operands.{listed};
ghost use Rattle.rg_spell.specs.Makings as makings;

use rg_base::Manager;
use rg_code::{Op, Operand, Operands};

/// An instruction of each name, at the place of its number.
pub(crate) const BLANKS: [Op; 59] = [
    Op::Mark { line: 0 },
    Op::Int { value: 0 },
    Op::Bool { value: false },
    Op::Nil,
    Op::Load { slot: 0 },
    Op::Clear { slot: 0 },
    Op::Store { slot: 0 },
    Op::Own { slot: 0 },
    Op::Field { index: 0 },
    Op::IsNil,
    Op::Neg,
    Op::Add,
    Op::Sub,
    Op::Mul,
    Op::Div,
    Op::Rem,
    Op::Eq,
    Op::Ne,
    Op::Lt,
    Op::Le,
    Op::Gt,
    Op::Ge,
    Op::Not,
    Op::Jump { to: 0 },
    Op::JumpFalse { to: 0 },
    Op::And { to: 0 },
    Op::Or { to: 0 },
    Op::Check,
    Op::New { class: 0 },
    Op::NewTmp { class: 0 },
    Op::NewIso {
        class: 0,
        manager: Manager::Arena,
    },
    Op::Pace,
    Op::Put { index: 0 },
    Op::Swap { slot: 0, index: 0 },
    Op::Freeze { slot: 0 },
    Op::Merge { slot: 0 },
    Op::Read,
    Op::More,
    Op::Room,
    Op::Call { method: 0 },
    Op::Ret,
    Op::RetVoid,
    Op::Enter { slot: 0, bridge: 0 },
    Op::EnterField {
        index: 0,
        bridge: 0,
    },
    Op::Leave { slot: 0 },
    Op::End { slot: 0 },
    Op::Print,
    Op::Collect,
    Op::Pop,
    Op::Drop,
    Op::Halt,
    Op::NewArray { class: 0 },
    Op::NewTmpArray { class: 0 },
    Op::NewIsoArray {
        class: 0,
        manager: Manager::Arena,
    },
    Op::Size,
    Op::Bound,
    Op::Element,
    Op::PutElement,
    Op::LeaveGiving { given: 0, slot: 0 },
];

// The instruction at a place.
fn op_at(ops: &[Op], place: usize) -> Option<Op>
    ensures { result ≡ slice_get ops.now place }
{
    ops.get(place).copied()
}

/// The instruction of a number, with other operands.
pub(crate) fn blank(n: u8) -> Option<Op>
    ensures { result ≡ slice_get BLANKS n }
{
    op_at(&BLANKS, n as usize)
}

// The line of an operand.
fn line(operand: Operand) -> u64
    ensures { result ≡ makings.line operand }
{
    if let Operand::Line(line) = operand {
        return line;
    }
    0
}

// The number of an operand that a program computes with.
fn value(operand: Operand) -> i64
    ensures { result ≡ makings.value operand }
{
    if let Operand::Int(value) = operand {
        return value;
    }
    0
}

// The truth value of an operand.
fn truth(operand: Operand) -> bool
    ensures { result ≡ makings.truth operand }
{
    if let Operand::Bool(truth) = operand {
        return truth;
    }
    false
}

// The number of an operand: a slot, a field, a class or a method.
fn number(operand: Operand) -> u32
    ensures { result ≡ makings.number operand }
{
    match operand {
        Operand::Slot(n)
        | Operand::From(n)
        | Operand::Field(n)
        | Operand::Class(n)
        | Operand::Method(n) => n,
        Operand::Line(_) | Operand::Int(_) | Operand::Bool(_) => 0,
        Operand::Address(_) | Operand::Manager(_) => 0,
    }
}

// The address of an operand.
fn address(operand: Operand) -> usize
    ensures { result ≡ makings.address operand }
{
    if let Operand::Address(address) = operand {
        return address;
    }
    0
}

// The manager of an operand.
fn manager(operand: Operand) -> Manager
    ensures { result ≡ makings.manager operand }
{
    if let Operand::Manager(manager) = operand {
        return manager;
    }
    Manager::Arena
}

// The first operand.
fn first(operands: Operands) -> Operand
    ensures { result ≡ makings.first (listed operands) }
{
    match operands {
        Operands::Nothing => Operand::Line(0),
        Operands::One(a) | Operands::Two(a, _) => a,
    }
}

// The second operand.
fn second(operands: Operands) -> Operand
    ensures { result ≡ makings.second (listed operands) }
{
    match operands {
        Operands::Nothing | Operands::One(_) => Operand::Line(0),
        Operands::Two(_, b) => b,
    }
}

/// An instruction with other operands.
pub(crate) fn with_operands(op: Op, operands: Operands) -> Op
    ensures { result ≡ makings.with_operands op (listed operands) }
{
    let a = first(operands);
    let b = second(operands);
    match op {
        Op::Mark { .. } => Op::Mark { line: line(a) },
        Op::Int { .. } => Op::Int { value: value(a) },
        Op::Bool { .. } => Op::Bool { value: truth(a) },
        Op::Load { .. } => Op::Load { slot: number(a) },
        Op::Clear { .. } => Op::Clear { slot: number(a) },
        Op::Store { .. } => Op::Store { slot: number(a) },
        Op::Own { .. } => Op::Own { slot: number(a) },
        Op::Field { .. } => Op::Field { index: number(a) },
        Op::Jump { .. } => Op::Jump { to: address(a) },
        Op::JumpFalse { .. } => Op::JumpFalse { to: address(a) },
        Op::And { .. } => Op::And { to: address(a) },
        Op::Or { .. } => Op::Or { to: address(a) },
        Op::New { .. } => Op::New { class: number(a) },
        Op::NewTmp { .. } => Op::NewTmp { class: number(a) },
        Op::NewIso { .. } => Op::NewIso {
            class: number(a),
            manager: manager(b),
        },
        Op::Put { .. } => Op::Put { index: number(a) },
        Op::Swap { .. } => Op::Swap {
            slot: number(a),
            index: number(b),
        },
        Op::Freeze { .. } => Op::Freeze { slot: number(a) },
        Op::Merge { .. } => Op::Merge { slot: number(a) },
        Op::Call { .. } => Op::Call { method: number(a) },
        Op::Enter { .. } => Op::Enter {
            slot: number(a),
            bridge: number(b),
        },
        Op::EnterField { .. } => Op::EnterField {
            index: number(a),
            bridge: number(b),
        },
        Op::Leave { .. } => Op::Leave { slot: number(a) },
        Op::End { .. } => Op::End { slot: number(a) },
        Op::NewArray { .. } => Op::NewArray { class: number(a) },
        Op::NewTmpArray { .. } => Op::NewTmpArray { class: number(a) },
        Op::NewIsoArray { .. } => {
            let (class, manager) = (number(a), manager(b));
            Op::NewIsoArray { class, manager }
        }
        Op::LeaveGiving { .. } => Op::LeaveGiving {
            given: number(a),
            slot: number(b),
        },
        other => other,
    }
}
