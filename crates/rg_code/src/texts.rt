//! The line of an instruction (docs/language.md, "Instructions and lowering").

ghost use Rattle.std.specs.Prelude.{◌≡◌, ◌∷◌, ◌++◌, OnOk};
ghost use Rattle.std.specs.Fmt.{decimal};
ghost use Rattle.rg_tree.specs.Canonical.{manager_text};
ghost use Rattle.rg_code.specs.Listing.{operand_text, operands_text, op_text, op_line};
ghost use Rattle.rg_code.specs.Operands.{listed};

use crate::op::Op;
use crate::operands::{Operand, Operands, name_of, operands_of};
use itoa::Buffer;
use rg_base::{ByteList, Manager, Memory};

/// Appends the line of the instruction at an address.
pub fn write_line(at: usize, op: Op, out: &mut ByteList) -> Result<(), Memory>
    ensures { OnOk result (out.new ≡ out.old ++ op_line at op) }
{
    write_number(at as u64, out)?;
    out.push(b' ')?;
    write_op(op, out)?;
    out.push(b'\n')
}

// Appends an instruction: its name and its operands.
fn write_op(op: Op, out: &mut ByteList) -> Result<(), Memory>
    ensures { OnOk result (out.new ≡ out.old ++ op_text op) }
{
    out.extend(name_of(op))?;
    write_operands(operands_of(op), out)
}

// Appends operands, each behind a blank.
fn write_operands(operands: Operands, out: &mut ByteList) -> Result<(), Memory>
    ensures { OnOk result (out.new ≡ out.old ++ operands_text (listed operands)) }
{
    match operands {
        Operands::Nothing => Ok(()),
        Operands::One(a) => write_operand(a, out),
        Operands::Two(a, b) => {
            write_operand(a, out)?;
            write_operand(b, out)
        }
    }
}

// Appends an operand behind a blank.
fn write_operand(operand: Operand, out: &mut ByteList) -> Result<(), Memory>
    ensures { OnOk result (out.new ≡ out.old ++ 32 ∷ operand_text operand) }
{
    out.push(b' ')?;
    match operand {
        Operand::Line(n) => write_number(n, out),
        Operand::Int(value) => out.extend(Buffer::new().format(value).as_bytes()),
        Operand::Bool(true) => out.extend(b"true"),
        Operand::Bool(false) => out.extend(b"false"),
        Operand::Slot(n)
        | Operand::From(n)
        | Operand::Field(n)
        | Operand::Class(n)
        | Operand::Method(n) => write_number(n as u64, out),
        Operand::Address(to) => write_number(to as u64, out),
        Operand::Manager(manager) => out.extend(manager_bytes(manager)),
    }
}

// Appends a number.
fn write_number(n: u64, out: &mut ByteList) -> Result<(), Memory>
    ensures { OnOk result (out.new ≡ out.old ++ decimal n) }
{
    out.extend(Buffer::new().format(n).as_bytes())
}

// The word of a manager.
fn manager_bytes(manager: Manager) -> &'static [u8]
    ensures { result.now ≡ manager_text manager }
{
    match manager {
        Manager::Arena => b"arena",
        Manager::Count => b"count",
        Manager::Trace => b"trace",
    }
}
