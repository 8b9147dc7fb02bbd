//! That the instructions of a code have spellings (docs/architecture.md, "Modules").

ghost use Rattle.std.specs.Prelude.{◌<◌, ◌^◌};
ghost use Rattle.rg_spell.specs.Spelling.{FitsOp, FitsOperand};
ghost use Rattle.rg_build.specs.Inner.Near.{IsNear, IsNearOperand};

use rg_code::{Op, Operand, Operands, operands_of};

/// An instruction has a spelling in a code of so many: slots and addresses by what is required, all
/// other numbers by their types.
pub fn fit(op: Op, count: usize)
    requires near { IsNear count op }
    requires count { count < 2 ^ 32 }
    ensures { FitsOp op }
{
    match operands_of(op) {
        Operands::Nothing => {}
        Operands::One(a) => fit_operand(a, count),
        Operands::Two(a, b) => {
            fit_operand(a, count);
            fit_operand(b, count);
        }
    }
}

// The same of an operand.
fn fit_operand(a: Operand, count: usize)
    requires near { IsNearOperand count a }
    requires count { count < 2 ^ 32 }
    ensures { FitsOperand a }
{
    match a {
        Operand::Line(_) => {}
        Operand::Int(_) => {}
        Operand::Bool(_) => {}
        Operand::Slot(_) => {}
        Operand::From(_) => {}
        Operand::Field(_) => {}
        Operand::Class(_) => {}
        Operand::Method(_) => {}
        Operand::Address(_) => {}
        Operand::Manager(_) => {}
    }
}
