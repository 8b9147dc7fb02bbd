//! What an instruction is in the code of an expression (docs/architecture.md, "Modules").

ghost use Rattle.std.specs.Prelude.{◌≡◌};
ghost use Rattle.rg_verify_expressions.specs.Parts as parts;
ghost use Rattle.rg_verify_expressions.specs.Raising as raising;

use rg_code::Op;
use rg_tree::BinOp;

/// An instruction of an expression.
#[derive(Clone, Copy)]
pub enum Part {
    /// a number comes
    Int { value: i64 },
    /// a truth value comes
    Bool { value: bool },
    /// nil comes
    Nil,
    /// a variable comes
    Load { slot: u32 },
    /// a field of the path in front
    Field { index: u32 },
    /// whether the path in front is nil
    IsNil,
    /// the number of elements of the array to which the path in front leads
    Size,
    /// the path in front is tested for nil
    Check,
    /// the index in front is tested, of an array that was tested
    Bound,
    /// the element of the place in front
    Element,
    /// minus what is in front
    Neg,
    /// not what is in front
    Not,
    /// an operator behind both operands
    Operator { op: BinOp },
    /// `and` or `or` between its operands, the right one of which ends at an address
    Between { junction: Junction, to: usize },
}

/// `and` or `or`.
#[derive(Clone, Copy)]
pub enum Junction {
    /// `and`
    And,
    /// `or`
    Or,
}

/// What an instruction is in an expression; None where none has it.
pub fn part_of(op: Op) -> Option<Part>
    ensures { result ≡ parts.part_of op }
{
    match op {
        Op::Int { value } => Some(Part::Int { value }),
        Op::Bool { value } => Some(Part::Bool { value }),
        Op::Nil => Some(Part::Nil),
        Op::Load { slot } => Some(Part::Load { slot }),
        Op::Field { index } => Some(Part::Field { index }),
        Op::IsNil => Some(Part::IsNil),
        Op::Size => Some(Part::Size),
        Op::Check => Some(Part::Check),
        Op::Bound => Some(Part::Bound),
        Op::Element => Some(Part::Element),
        Op::Neg => Some(Part::Neg),
        Op::Not => Some(Part::Not),
        Op::Add => Some(Part::Operator { op: BinOp::Add }),
        Op::Sub => Some(Part::Operator { op: BinOp::Sub }),
        Op::Mul => Some(Part::Operator { op: BinOp::Mul }),
        Op::Div => Some(Part::Operator { op: BinOp::Div }),
        Op::Rem => Some(Part::Operator { op: BinOp::Rem }),
        Op::Eq => Some(Part::Operator { op: BinOp::Eq }),
        Op::Ne => Some(Part::Operator { op: BinOp::Ne }),
        Op::Lt => Some(Part::Operator { op: BinOp::Lt }),
        Op::Le => Some(Part::Operator { op: BinOp::Le }),
        Op::Gt => Some(Part::Operator { op: BinOp::Gt }),
        Op::Ge => Some(Part::Operator { op: BinOp::Ge }),
        Op::And { to } => Some(Part::Between {
            junction: Junction::And,
            to,
        }),
        Op::Or { to } => Some(Part::Between {
            junction: Junction::Or,
            to,
        }),
        Op::Mark { .. } | Op::Clear { .. } | Op::Store { .. } | Op::Own { .. } => None,
        Op::Jump { .. } | Op::JumpFalse { .. } | Op::Pace => None,
        Op::New { .. } | Op::NewTmp { .. } | Op::NewIso { .. } => None,
        Op::NewArray { .. } | Op::NewTmpArray { .. } | Op::NewIsoArray { .. } => None,
        Op::Put { .. } | Op::PutElement | Op::Swap { .. } => None,
        Op::Freeze { .. } | Op::Merge { .. } => None,
        Op::Read | Op::More | Op::Room | Op::Call { .. } | Op::Ret | Op::RetVoid => None,
        Op::Enter { .. } | Op::EnterField { .. } | Op::End { .. } => None,
        Op::Leave { .. } | Op::LeaveGiving { .. } => None,
        Op::Print | Op::Collect | Op::Pop | Op::Drop | Op::Halt => None,
    }
}

/// The operator of a junction.
pub(crate) fn operator_of(junction: Junction) -> BinOp
    ensures { result ≡ raising.operator_of junction }
{
    match junction {
        Junction::And => BinOp::And,
        Junction::Or => BinOp::Or,
    }
}
