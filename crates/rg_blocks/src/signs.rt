//! What an instruction at an address is at the beginning and the end of blocks
//! (docs/architecture.md, "Modules").

ghost use Rattle.std.specs.Prelude.{◌≡◌, ◌+◌, ◌<◌, ◌^◌, IfSome};
ghost use Rattle.rg_verify_expressions.specs.Signs.{close_of, open_of, jump_of, end_of};
ghost use Rattle.rg_verify_expressions.specs.Signs.{leave_of, closing_of};
ghost use Rattle.rg_verify_expressions.specs.Blocks.{sign};

use rg_code::{CodeList, Op};
use rg_raise::op_at;
use rg_verify_expressions::{Close, Leave, Open};

/// At an address, what stands behind a whole expression.
pub(crate) fn close_at(code: &CodeList, at: usize) -> Option<Close>
    ensures told { result ≡ sign close_of code.now.ops at }
    ensures next { IfSome result (λ x. at + 1 < 2 ^ 64) }
{
    match op_at(code, at)? {
        Op::Print => Some(Close::Print),
        Op::Ret => Some(Close::Return),
        Op::JumpFalse { to } => Some(Close::Test { to }),
        Op::Mark { .. } | Op::Int { .. } | Op::Bool { .. } | Op::Nil | Op::Load { .. } => None,
        Op::Clear { .. } | Op::Store { .. } | Op::Own { .. } | Op::Field { .. } | Op::IsNil => None,
        Op::Neg | Op::Add | Op::Sub | Op::Mul | Op::Div | Op::Rem | Op::Eq | Op::Ne => None,
        Op::Lt | Op::Le | Op::Gt | Op::Ge | Op::Not => None,
        Op::Jump { .. } | Op::And { .. } | Op::Or { .. } | Op::Check => None,
        Op::New { .. } | Op::NewTmp { .. } | Op::NewIso { .. } | Op::Pace => None,
        Op::Put { .. } | Op::Swap { .. } | Op::Freeze { .. } | Op::Merge { .. } => None,
        Op::Read | Op::More | Op::Room | Op::Call { .. } | Op::RetVoid => None,
        Op::Enter { .. } | Op::EnterField { .. } | Op::Leave { .. } | Op::End { .. } => None,
        Op::Collect | Op::Pop | Op::Drop | Op::Halt => None,
        Op::NewArray { .. } | Op::NewTmpArray { .. } | Op::NewIsoArray { .. } => None,
        Op::Size | Op::Bound | Op::Element | Op::PutElement | Op::LeaveGiving { .. } => None,
    }
}

/// At an address, what a statement without expressions begins with.
pub(crate) fn open_at(code: &CodeList, at: usize) -> Option<Open>
    ensures told { result ≡ sign open_of code.now.ops at }
    ensures next { IfSome result (λ x. at + 1 < 2 ^ 64) }
{
    match op_at(code, at)? {
        Op::Collect => Some(Open::Collect),
        Op::Enter { slot, bridge } => Some(Open::Enter { slot, bridge }),
        Op::Mark { .. } | Op::Int { .. } | Op::Bool { .. } | Op::Nil | Op::Load { .. } => None,
        Op::Clear { .. } | Op::Store { .. } | Op::Own { .. } | Op::Field { .. } | Op::IsNil => None,
        Op::Neg | Op::Add | Op::Sub | Op::Mul | Op::Div | Op::Rem | Op::Eq | Op::Ne => None,
        Op::Lt | Op::Le | Op::Gt | Op::Ge | Op::Not => None,
        Op::Jump { .. } | Op::JumpFalse { .. } | Op::And { .. } | Op::Or { .. } | Op::Check => None,
        Op::New { .. } | Op::NewTmp { .. } | Op::NewIso { .. } | Op::Pace => None,
        Op::Put { .. } | Op::Swap { .. } | Op::Freeze { .. } | Op::Merge { .. } => None,
        Op::Read | Op::More | Op::Room | Op::Call { .. } | Op::Ret | Op::RetVoid => None,
        Op::EnterField { .. } | Op::Leave { .. } | Op::End { .. } => None,
        Op::Print | Op::Pop | Op::Drop | Op::Halt => None,
        Op::NewArray { .. } | Op::NewTmpArray { .. } | Op::NewIsoArray { .. } => None,
        Op::Size | Op::Bound | Op::Element | Op::PutElement | Op::LeaveGiving { .. } => None,
    }
}

/// At an address, where a jump leads.
pub(crate) fn jump_at(code: &CodeList, at: usize) -> Option<usize>
    ensures told { result ≡ sign jump_of code.now.ops at }
    ensures next { IfSome result (λ x. at + 1 < 2 ^ 64) }
{
    let Op::Jump { to } = op_at(code, at)? else {
        return None;
    };
    Some(to)
}

/// At an address, the slot from which on a block's end takes slots away.
pub(crate) fn end_at(code: &CodeList, at: usize) -> Option<u32>
    ensures told { result ≡ sign end_of code.now.ops at }
    ensures next { IfSome result (λ x. at + 1 < 2 ^ 64) }
{
    let Op::End { slot } = op_at(code, at)? else {
        return None;
    };
    Some(slot)
}

/// At an address, how a window is left.
pub(crate) fn leave_at(code: &CodeList, at: usize) -> Option<Leave>
    ensures told { result ≡ sign leave_of code.now.ops at }
    ensures next { IfSome result (λ x. at + 1 < 2 ^ 64) }
{
    match op_at(code, at)? {
        Op::Leave { slot } => Some(Leave { slot, given: None }),
        Op::LeaveGiving { given, slot } => Some(Leave {
            slot,
            given: Some(given),
        }),
        Op::Mark { .. } | Op::Int { .. } | Op::Bool { .. } | Op::Nil | Op::Load { .. } => None,
        Op::Clear { .. } | Op::Store { .. } | Op::Own { .. } | Op::Field { .. } | Op::IsNil => None,
        Op::Neg | Op::Add | Op::Sub | Op::Mul | Op::Div | Op::Rem | Op::Eq | Op::Ne => None,
        Op::Lt | Op::Le | Op::Gt | Op::Ge | Op::Not => None,
        Op::Jump { .. } | Op::JumpFalse { .. } | Op::And { .. } | Op::Or { .. } | Op::Check => None,
        Op::New { .. } | Op::NewTmp { .. } | Op::NewIso { .. } | Op::Pace => None,
        Op::Put { .. } | Op::Swap { .. } | Op::Freeze { .. } | Op::Merge { .. } => None,
        Op::Read | Op::More | Op::Room | Op::Call { .. } | Op::Ret | Op::RetVoid => None,
        Op::Enter { .. } | Op::EnterField { .. } | Op::End { .. } => None,
        Op::Print | Op::Collect | Op::Pop | Op::Drop | Op::Halt => None,
        Op::NewArray { .. } | Op::NewTmpArray { .. } | Op::NewIsoArray { .. } => None,
        Op::Size | Op::Bound | Op::Element | Op::PutElement => None,
    }
}

/// At an address, what ends a block, behind a mark.
pub(crate) fn closing_at(code: &CodeList, at: usize) -> Option<()>
    ensures told { result ≡ sign closing_of code.now.ops at }
    ensures next { IfSome result (λ x. at + 1 < 2 ^ 64) }
{
    match op_at(code, at)? {
        Op::End { .. } => Some(()),
        Op::Leave { .. } => Some(()),
        Op::LeaveGiving { .. } => Some(()),
        Op::RetVoid => Some(()),
        Op::Mark { .. } | Op::Int { .. } | Op::Bool { .. } | Op::Nil | Op::Load { .. } => None,
        Op::Clear { .. } | Op::Store { .. } | Op::Own { .. } | Op::Field { .. } | Op::IsNil => None,
        Op::Neg | Op::Add | Op::Sub | Op::Mul | Op::Div | Op::Rem | Op::Eq | Op::Ne => None,
        Op::Lt | Op::Le | Op::Gt | Op::Ge | Op::Not => None,
        Op::Jump { .. } | Op::JumpFalse { .. } | Op::And { .. } | Op::Or { .. } | Op::Check => None,
        Op::New { .. } | Op::NewTmp { .. } | Op::NewIso { .. } | Op::Pace => None,
        Op::Put { .. } | Op::Swap { .. } | Op::Freeze { .. } | Op::Merge { .. } => None,
        Op::Read | Op::More | Op::Room | Op::Call { .. } | Op::Ret => None,
        Op::Enter { .. } | Op::EnterField { .. } => None,
        Op::Print | Op::Collect | Op::Pop | Op::Drop | Op::Halt => None,
        Op::NewArray { .. } | Op::NewTmpArray { .. } | Op::NewIsoArray { .. } => None,
        Op::Size | Op::Bound | Op::Element | Op::PutElement => None,
    }
}
