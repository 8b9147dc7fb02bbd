//! What stands in an instruction: its number, its name and its operands (docs/language.md,
//! "Instructions and lowering").

ghost use Rattle.std.specs.Prelude.{◌≡◌, ◌∷◌, []};
ghost use Rattle.rg_code.specs.Lowering.{above};
ghost use Rattle.rg_code.specs.Operands as operands;
ghost use Rattle.rg_code.specs.Operands.{form, listed, slots_in, above_all};
ghost use Rattle.rg_code.specs.Inner.Rows.{shown};

use crate::op::Op;
use rg_base::Manager;

/// A number, or what else stands behind the name of an instruction.
#[derive(Clone, Copy)]
pub enum Operand {
    /// a line of the source
    Line(u64),
    /// a number that a program computes with
    Int(i64),
    /// a truth value
    Bool(bool),
    /// a slot
    Slot(u32),
    /// the slot from which on slots end, which needn't be there
    From(u32),
    /// a field of a class
    Field(u32),
    /// a class
    Class(u32),
    /// a method
    Method(u32),
    /// an address in the code
    Address(usize),
    /// a manager
    Manager(Manager),
}

/// The operands of an instruction, in order; contracts see the list (`listed`).
#[derive(Clone, Copy)]
pub enum Operands {
    Nothing,
    One(Operand),
    Two(Operand, Operand),
}

// A row of the table.
#[derive(Clone, Copy)]
struct Row {
    number: u8,
    name: &'static [u8],
    operands: Operands,
}

// The row with these parts.
fn form(number: u8, name: &'static [u8], operands: Operands) -> Row
    ensures { shown result ≡ form number name.now (listed operands) }
{
    Row {
        number,
        name,
        operands,
    }
}

// The row of an instruction.
fn row_of(op: Op) -> Row
    ensures { shown result ≡ operands.form_of op }
{
    match op {
        Op::Mark { line } => form(0, b"mark", Operands::One(Operand::Line(line))),
        Op::Int { value } => form(1, b"int", Operands::One(Operand::Int(value))),
        Op::Bool { value } => form(2, b"bool", Operands::One(Operand::Bool(value))),
        Op::Nil => form(3, b"nil", Operands::Nothing),
        Op::Load { slot } => form(4, b"load", Operands::One(Operand::Slot(slot))),
        Op::Clear { slot } => form(5, b"clear", Operands::One(Operand::Slot(slot))),
        Op::Store { slot } => form(6, b"store", Operands::One(Operand::Slot(slot))),
        Op::Own { slot } => form(7, b"own", Operands::One(Operand::Slot(slot))),
        Op::Field { index } => form(8, b"field", Operands::One(Operand::Field(index))),
        Op::IsNil => form(9, b"isnil", Operands::Nothing),
        Op::Neg => form(10, b"neg", Operands::Nothing),
        Op::Add => form(11, b"add", Operands::Nothing),
        Op::Sub => form(12, b"sub", Operands::Nothing),
        Op::Mul => form(13, b"mul", Operands::Nothing),
        Op::Div => form(14, b"div", Operands::Nothing),
        Op::Rem => form(15, b"rem", Operands::Nothing),
        Op::Eq => form(16, b"eq", Operands::Nothing),
        Op::Ne => form(17, b"ne", Operands::Nothing),
        Op::Lt => form(18, b"lt", Operands::Nothing),
        Op::Le => form(19, b"le", Operands::Nothing),
        Op::Gt => form(20, b"gt", Operands::Nothing),
        Op::Ge => form(21, b"ge", Operands::Nothing),
        Op::Not => form(22, b"not", Operands::Nothing),
        Op::Jump { to } => form(23, b"jump", Operands::One(Operand::Address(to))),
        Op::JumpFalse { to } => form(24, b"jfalse", Operands::One(Operand::Address(to))),
        Op::And { to } => form(25, b"and", Operands::One(Operand::Address(to))),
        Op::Or { to } => form(26, b"or", Operands::One(Operand::Address(to))),
        Op::Check => form(27, b"check", Operands::Nothing),
        Op::New { class } => form(28, b"new", Operands::One(Operand::Class(class))),
        Op::NewTmp { class } => form(29, b"newtmp", Operands::One(Operand::Class(class))),
        Op::NewIso { class, manager } => form(
            30,
            b"newiso",
            Operands::Two(Operand::Class(class), Operand::Manager(manager)),
        ),
        Op::Pace => form(31, b"pace", Operands::Nothing),
        Op::Put { index } => form(32, b"put", Operands::One(Operand::Field(index))),
        Op::Swap { slot, index } => form(
            33,
            b"swap",
            Operands::Two(Operand::Slot(slot), Operand::Field(index)),
        ),
        Op::Freeze { slot } => form(34, b"freeze", Operands::One(Operand::Slot(slot))),
        Op::Merge { slot } => form(35, b"merge", Operands::One(Operand::Slot(slot))),
        Op::Read => form(36, b"read", Operands::Nothing),
        Op::More => form(37, b"more", Operands::Nothing),
        Op::Room => form(38, b"room", Operands::Nothing),
        Op::Call { method } => form(39, b"call", Operands::One(Operand::Method(method))),
        Op::Ret => form(40, b"ret", Operands::Nothing),
        Op::RetVoid => form(41, b"retv", Operands::Nothing),
        Op::Enter { slot, bridge } => form(
            42,
            b"enter",
            Operands::Two(Operand::Slot(slot), Operand::Slot(bridge)),
        ),
        Op::EnterField { index, bridge } => form(
            43,
            b"enterf",
            Operands::Two(Operand::Field(index), Operand::Slot(bridge)),
        ),
        Op::Leave { slot } => form(44, b"leave", Operands::One(Operand::Slot(slot))),
        Op::End { slot } => form(45, b"end", Operands::One(Operand::From(slot))),
        Op::Print => form(46, b"print", Operands::Nothing),
        Op::Collect => form(47, b"collect", Operands::Nothing),
        Op::Pop => form(48, b"pop", Operands::Nothing),
        Op::Drop => form(49, b"drop", Operands::Nothing),
        Op::Halt => form(50, b"halt", Operands::Nothing),
        Op::NewArray { class } => form(51, b"newarr", Operands::One(Operand::Class(class))),
        Op::NewTmpArray { class } => form(52, b"newtmparr", Operands::One(Operand::Class(class))),
        Op::NewIsoArray { class, manager } => form(
            53,
            b"newisoarr",
            Operands::Two(Operand::Class(class), Operand::Manager(manager)),
        ),
        Op::Size => form(54, b"size", Operands::Nothing),
        Op::Bound => form(55, b"bound", Operands::Nothing),
        Op::Element => form(56, b"elem", Operands::Nothing),
        Op::PutElement => form(57, b"putelem", Operands::Nothing),
        Op::LeaveGiving { given, slot } => form(
            58,
            b"leaveg",
            Operands::Two(Operand::Slot(given), Operand::Slot(slot)),
        ),
    }
}

/// The number of an instruction in a module.
pub fn number_of(op: Op) -> u8
    ensures { result ≡ operands.number_of op }
{
    row_of(op).number
}

/// The name of an instruction in a listing.
pub fn name_of(op: Op) -> &'static [u8]
    ensures { result.now ≡ operands.name_of op }
{
    row_of(op).name
}

/// The operands of an instruction.
pub fn operands_of(op: Op) -> Operands
    ensures { listed result ≡ operands.operands_of op }
{
    row_of(op).operands
}

// The least number above the slot that an operand names.
fn above_operand(operand: Operand) -> u64
    ensures { result ≡ above_all (slots_in (operand ∷ [])) }
{
    if let Operand::Slot(slot) = operand {
        return slot as u64 + 1;
    }
    0
}

/// The least number above the slots that an instruction names; the slot of `end` doesn't count.
pub fn above(op: Op) -> u64
    ensures { result ≡ above op }
{
    match operands_of(op) {
        Operands::Nothing => 0,
        Operands::One(a) => above_operand(a),
        Operands::Two(a, b) => above_operand(a).max(above_operand(b)),
    }
}
