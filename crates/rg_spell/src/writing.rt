//! Parts of a module, each appended as its bytes (docs/architecture.md, "Modules").

ghost use Rattle.std.specs.Prelude.{◌≡◌, ◌<◌, ◌^◌, ◌∷◌, [], ◌++◌, length, OnOk, OnErr};
ghost use Rattle.std.specs.List.{flat_map, AllByRecursion};
ghost use Rattle.std.specs.Int.{w32, w64, to_be_bytes};
ghost use Rattle.rg_code.specs.Operands.{listed};
ghost use Rattle.rg_code.specs.Places as places;
ghost use Rattle.rg_spell.specs.Spelling.{four, eight, signed, bool_number, manager_number};
ghost use Rattle.rg_spell.specs.Spelling.{counted, Counted, ty_bytes, FitsTy, members_bytes};
ghost use Rattle.rg_spell.specs.Spelling.{shape_bytes, FitsShape, result_bytes, head_bytes};
ghost use Rattle.rg_spell.specs.Spelling.{FitsHead, operand_bytes, FitsOperand};
ghost use Rattle.rg_spell.specs.Spelling.{map_bytes, FitsMap};
ghost use Rattle.rg_spell.specs.Spelling.{row_bytes, FitsRow, AppendsPart};

use crate::numbers::{bool_number, cap_number, manager_number};
use crate::ops::is_mark;
use crate::rows::{Head, Shape};
use rg_base::{ByteList, Manager, Memory, Ty};
use rg_code::{Op, Operand, Operands, number_of, operands_of};

/// Appends a number of four bytes.
pub fn write_u32(n: u32, out: &mut ByteList) -> Result<(), Memory>
    ensures ok { OnOk result (out.new ≡ out.old ++ four n) }
    ensures err { OnErr result (out.new ≡ out.old) }
{
    out.extend(&n.to_be_bytes())
}

/// Appends a number of eight bytes.
pub fn write_u64(n: u64, out: &mut ByteList) -> Result<(), Memory>
    ensures ok { OnOk result (out.new ≡ out.old ++ eight n) }
    ensures err { OnErr result (out.new ≡ out.old) }
{
    out.extend(&n.to_be_bytes())
}

/// Appends a number with a sign.
pub fn write_i64(z: i64, out: &mut ByteList) -> Result<(), Memory>
    ensures ok { OnOk result (out.new ≡ out.old ++ signed z) }
    ensures err { OnErr result (out.new ≡ out.old) }
{
    out.extend(&z.to_be_bytes())
}

// Appends a type.
fn write_type(ty: Ty, out: &mut ByteList) -> Result<(), Memory>
    ensures ok { OnOk result (out.new ≡ out.old ++ ty_bytes ty) }
    ensures part { OnErr result (AppendsPart out.old out.new (ty_bytes ty)) }
{
    match ty {
        Ty::Int => out.push(0),
        Ty::Bool => out.push(1),
        Ty::Ref { cap, class } => {
            out.push(cap_number(cap))?;
            write_u32(class, out)
        }
    }
}

// Appends a count of types, and the types.
fn write_types(types: &[Ty], out: &mut ByteList) -> Result<(), Memory>
    requires { length types.now < 2 ^ 32 }
    ensures ok { OnOk result (out.new ≡ out.old ++ counted ty_bytes types.now) }
    ensures part { OnErr result (AppendsPart out.old out.new (counted ty_bytes types.now)) }
{
    write_u32(types.len() as u32, out)?;
    for ty in types {
        write_type(*ty, out)?;
    }
    Ok(())
}

// Appends a class.
fn write_shape(shape: &Shape, out: &mut ByteList) -> Result<(), Memory>
    requires { FitsShape shape.now }
    ensures ok { OnOk result (out.new ≡ out.old ++ shape_bytes shape.now) }
    ensures part { OnErr result (AppendsPart out.old out.new (shape_bytes shape.now)) }
{
    out.push(bool_number(shape.is_tmp))?;
    if let Some(element) = shape.element {
        out.push(1)?;
        write_type(element, out)?;
        return Ok(());
    }
    out.push(0)?;
    write_types(shape.fields.items(), out)?;
    Ok(())
}

/// Appends a count of classes, and the classes.
pub fn write_shapes(shapes: &[Shape], out: &mut ByteList) -> Result<(), Memory>
    requires { Counted FitsShape shapes.now }
    ensures ok { OnOk result (out.new ≡ out.old ++ counted shape_bytes shapes.now) }
    ensures part { OnErr result (AppendsPart out.old out.new (counted shape_bytes shapes.now)) }
{
    write_u32(shapes.len() as u32, out)?;
    for shape in shapes {
        write_shape(shape, out)?;
    }
    Ok(())
}

// Appends the result of a method.
fn write_result(answer: Option<Ty>, out: &mut ByteList) -> Result<(), Memory>
    ensures ok { OnOk result (out.new ≡ out.old ++ result_bytes answer) }
    ensures part { OnErr result (AppendsPart out.old out.new (result_bytes answer)) }
{
    let Some(ty) = answer else {
        return out.push(0);
    };
    out.push(1)?;
    write_type(ty, out)
}

// Appends the head of a method.
fn write_head(head: &Head, out: &mut ByteList) -> Result<(), Memory>
    requires { FitsHead head.now }
    ensures ok { OnOk result (out.new ≡ out.old ++ head_bytes head.now) }
    ensures part { OnErr result (AppendsPart out.old out.new (head_bytes head.now)) }
{
    write_u32(head.class, out)?;
    out.push(cap_number(head.cap))?;
    write_types(head.params.items(), out)?;
    write_result(head.result, out)?;
    Ok(())
}

/// Appends a count of heads, and the heads.
pub fn write_heads(heads: &[Head], out: &mut ByteList) -> Result<(), Memory>
    requires { Counted FitsHead heads.now }
    ensures ok { OnOk result (out.new ≡ out.old ++ counted head_bytes heads.now) }
    ensures part { OnErr result (AppendsPart out.old out.new (counted head_bytes heads.now)) }
{
    write_u32(heads.len() as u32, out)?;
    for head in heads {
        write_head(head, out)?;
    }
    Ok(())
}

/// Appends a manager.
pub fn write_manager(manager: Manager, out: &mut ByteList) -> Result<(), Memory>
    ensures ok { OnOk result (out.new ≡ out.old ++ manager_number manager ∷ []) }
    ensures err { OnErr result (out.new ≡ out.old) }
{
    out.push(manager_number(manager))
}

// Appends an operand.
fn write_operand(operand: Operand, out: &mut ByteList) -> Result<(), Memory>
    requires { FitsOperand operand }
    ensures ok { OnOk result (out.new ≡ out.old ++ operand_bytes operand) }
    ensures err { OnErr result (out.new ≡ out.old) }
{
    match operand {
        Operand::Line(line) => write_u64(line, out),
        Operand::Int(value) => write_i64(value, out),
        Operand::Bool(value) => out.push(bool_number(value)),
        Operand::Slot(n)
        | Operand::From(n)
        | Operand::Field(n)
        | Operand::Class(n)
        | Operand::Method(n) => write_u32(n, out),
        Operand::Address(to) => write_u32(to as u32, out),
        Operand::Manager(manager) => write_manager(manager, out),
    }
}

// Appends operands.
fn write_operands(operands: Operands, out: &mut ByteList) -> Result<(), Memory>
    requires { AllByRecursion FitsOperand (listed operands) }
    ensures ok { OnOk result (out.new ≡ out.old ++ flat_map operand_bytes (listed operands)) }
    ensures part { OnErr result (
        AppendsPart out.old out.new (flat_map operand_bytes (listed operands))) }
{
    match operands {
        Operands::Nothing => Ok(()),
        Operands::One(a) => write_operand(a, out),
        Operands::Two(a, b) => {
            write_operand(a, out)?;
            write_operand(b, out)
        }
    }
}

// Appends the map behind an instruction.
fn write_map(mark: bool, map: &[Ty], out: &mut ByteList) -> Result<(), Memory>
    requires { FitsMap mark map.now }
    ensures ok { OnOk result (out.new ≡ out.old ++ map_bytes mark map.now) }
    ensures part { OnErr result (AppendsPart out.old out.new (map_bytes mark map.now)) }
{
    if !mark {
        return Ok(());
    }
    write_types(map, out)?;
    Ok(())
}

/// Appends an instruction and its map.
pub fn write_row(op: Op, map: &[Ty], out: &mut ByteList) -> Result<(), Memory>
    requires { FitsRow (op, map.now) }
    ensures ok { OnOk result (out.new ≡ out.old ++ row_bytes (op, map.now)) }
    ensures part { OnErr result (AppendsPart out.old out.new (row_bytes (op, map.now))) }
{
    out.push(number_of(op))?;
    write_operands(operands_of(op), out)?;
    write_map(is_mark(op), map, out)?;
    Ok(())
}
