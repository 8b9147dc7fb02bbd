//! What an instruction at an address is behind the expressions of a statement
//! (docs/architecture.md, "Modules").

ghost use Rattle.std.specs.Prelude.{◌≡◌, ◌+◌, ◌<◌, ◌^◌, slice_get, IfSome};
ghost use Rattle.rg_verify_expressions.specs.Signs.{making_of, target_of, walk_of, behind_of, mark_of};
ghost use Rattle.rg_verify_expressions.specs.Signs.{clear_of, call_of, put_of, put_element_of, left_of};
ghost use Rattle.rg_verify_expressions.specs.Signs.{pace_of};
ghost use Rattle.rg_verify_expressions.specs.Blocks.{sign};

use rg_code::{CodeList, Op};
use rg_verify_expressions::{Behind, Making, Target, Walk};

/// The instruction at an address, where there is one.
pub fn op_at(code: &CodeList, at: usize) -> Option<Op>
    ensures told { result ≡ slice_get code.now.ops at }
    ensures next { IfSome result (λ x. at + 1 < 2 ^ 64) }
{
    if at < code.len() {
        return Some(code.get(at));
    }
    None
}

/// At an address, a right side of one instruction.
pub(crate) fn making_at(code: &CodeList, at: usize) -> Option<Making>
    ensures told { result ≡ sign making_of code.now.ops at }
    ensures next { IfSome result (λ x. at + 1 < 2 ^ 64) }
{
    match op_at(code, at)? {
        Op::New { class } => Some(Making::New { class }),
        Op::NewTmp { class } => Some(Making::NewTmp { class }),
        Op::NewIso { class, manager } => Some(Making::NewIso { class, manager }),
        Op::Freeze { slot } => Some(Making::Freeze { slot }),
        Op::Merge { slot } => Some(Making::Merge { slot }),
        Op::Read => Some(Making::Read),
        Op::More => Some(Making::More),
        Op::Mark { .. } | Op::Int { .. } | Op::Bool { .. } | Op::Nil | Op::Load { .. } => None,
        Op::Clear { .. } | Op::Store { .. } | Op::Own { .. } | Op::Field { .. } | Op::IsNil => None,
        Op::Neg | Op::Add | Op::Sub | Op::Mul | Op::Div | Op::Rem | Op::Eq | Op::Ne => None,
        Op::Lt | Op::Le | Op::Gt | Op::Ge | Op::Not => None,
        Op::Jump { .. } | Op::JumpFalse { .. } | Op::And { .. } | Op::Or { .. } | Op::Check => None,
        Op::Pace => None,
        Op::Put { .. } | Op::Swap { .. } => None,
        Op::Room | Op::Call { .. } | Op::Ret | Op::RetVoid => None,
        Op::Enter { .. } | Op::EnterField { .. } | Op::Leave { .. } | Op::End { .. } => None,
        Op::Print | Op::Collect | Op::Pop | Op::Drop | Op::Halt => None,
        Op::NewArray { .. } | Op::NewTmpArray { .. } | Op::NewIsoArray { .. } => None,
        Op::Size | Op::Bound | Op::Element | Op::PutElement | Op::LeaveGiving { .. } => None,
    }
}

/// At an address, how a value goes into a slot.
pub(crate) fn target_at(code: &CodeList, at: usize) -> Option<Target>
    ensures told { result ≡ sign target_of code.now.ops at }
    ensures next { IfSome result (λ x. at + 1 < 2 ^ 64) }
{
    match op_at(code, at)? {
        Op::Store { slot } => Some(Target::Store { slot }),
        Op::Own { slot } => Some(Target::Own { slot }),
        Op::Mark { .. } | Op::Int { .. } | Op::Bool { .. } | Op::Nil | Op::Load { .. } => None,
        Op::Clear { .. } | Op::Field { .. } | Op::IsNil => None,
        Op::Neg | Op::Add | Op::Sub | Op::Mul | Op::Div | Op::Rem | Op::Eq | Op::Ne => None,
        Op::Lt | Op::Le | Op::Gt | Op::Ge | Op::Not => None,
        Op::Jump { .. } | Op::JumpFalse { .. } | Op::And { .. } | Op::Or { .. } | Op::Check => None,
        Op::New { .. } | Op::NewTmp { .. } | Op::NewIso { .. } | Op::Pace => None,
        Op::Put { .. } | Op::Swap { .. } | Op::Freeze { .. } | Op::Merge { .. } => None,
        Op::Read | Op::More | Op::Room | Op::Call { .. } | Op::Ret | Op::RetVoid => None,
        Op::Enter { .. } | Op::EnterField { .. } | Op::Leave { .. } | Op::End { .. } => None,
        Op::Print | Op::Collect | Op::Pop | Op::Drop | Op::Halt => None,
        Op::NewArray { .. } | Op::NewTmpArray { .. } | Op::NewIsoArray { .. } => None,
        Op::Size | Op::Bound | Op::Element | Op::PutElement | Op::LeaveGiving { .. } => None,
    }
}

/// At an address, what stands behind an expression that isn't a value as a whole.
pub fn walk_at(code: &CodeList, at: usize) -> Option<Walk>
    ensures told { result ≡ sign walk_of code.now.ops at }
    ensures next { IfSome result (λ x. at + 1 < 2 ^ 64) }
{
    match op_at(code, at)? {
        Op::EnterField { index, bridge } => Some(Walk::Enter { index, bridge }),
        Op::NewArray { class } => Some(Walk::New { class }),
        Op::NewTmpArray { class } => Some(Walk::NewTmp { class }),
        Op::NewIsoArray { class, manager } => Some(Walk::NewIso { class, manager }),
        Op::Mark { .. } | Op::Int { .. } | Op::Bool { .. } | Op::Nil | Op::Load { .. } => None,
        Op::Clear { .. } | Op::Store { .. } | Op::Own { .. } | Op::Field { .. } | Op::IsNil => None,
        Op::Neg | Op::Add | Op::Sub | Op::Mul | Op::Div | Op::Rem | Op::Eq | Op::Ne => None,
        Op::Lt | Op::Le | Op::Gt | Op::Ge | Op::Not => None,
        Op::Jump { .. } | Op::JumpFalse { .. } | Op::And { .. } | Op::Or { .. } | Op::Check => None,
        Op::New { .. } | Op::NewTmp { .. } | Op::NewIso { .. } | Op::Pace => None,
        Op::Put { .. } | Op::Swap { .. } | Op::Freeze { .. } | Op::Merge { .. } => None,
        Op::Read | Op::More | Op::Room | Op::Call { .. } | Op::Ret | Op::RetVoid => None,
        Op::Enter { .. } | Op::Leave { .. } | Op::End { .. } => None,
        Op::Print | Op::Collect | Op::Pop | Op::Drop | Op::Halt => None,
        Op::Size | Op::Bound | Op::Element | Op::PutElement | Op::LeaveGiving { .. } => None,
    }
}

/// At an address, what stands behind an object and further expressions.
pub(crate) fn behind_at(code: &CodeList, at: usize) -> Option<Behind>
    ensures told { result ≡ sign behind_of code.now.ops at }
    ensures next { IfSome result (λ x. at + 1 < 2 ^ 64) }
{
    match op_at(code, at)? {
        Op::Room => Some(Behind::Room),
        Op::Swap { slot, index } => Some(Behind::Swap { slot, index }),
        Op::Mark { .. } | Op::Int { .. } | Op::Bool { .. } | Op::Nil | Op::Load { .. } => None,
        Op::Clear { .. } | Op::Store { .. } | Op::Own { .. } | Op::Field { .. } | Op::IsNil => None,
        Op::Neg | Op::Add | Op::Sub | Op::Mul | Op::Div | Op::Rem | Op::Eq | Op::Ne => None,
        Op::Lt | Op::Le | Op::Gt | Op::Ge | Op::Not => None,
        Op::Jump { .. } | Op::JumpFalse { .. } | Op::And { .. } | Op::Or { .. } | Op::Check => None,
        Op::New { .. } | Op::NewTmp { .. } | Op::NewIso { .. } | Op::Pace => None,
        Op::Put { .. } | Op::Freeze { .. } | Op::Merge { .. } => None,
        Op::Read | Op::More | Op::Call { .. } | Op::Ret | Op::RetVoid => None,
        Op::Enter { .. } | Op::EnterField { .. } | Op::Leave { .. } | Op::End { .. } => None,
        Op::Print | Op::Collect | Op::Pop | Op::Drop | Op::Halt => None,
        Op::NewArray { .. } | Op::NewTmpArray { .. } | Op::NewIsoArray { .. } => None,
        Op::Size | Op::Bound | Op::Element | Op::PutElement | Op::LeaveGiving { .. } => None,
    }
}

/// At an address, the line of a mark.
pub fn mark_at(code: &CodeList, at: usize) -> Option<u64>
    ensures told { result ≡ sign mark_of code.now.ops at }
    ensures next { IfSome result (λ x. at + 1 < 2 ^ 64) }
{
    let Op::Mark { line } = op_at(code, at)? else {
        return None;
    };
    Some(line)
}

/// At an address, the slot that is cleared.
pub(crate) fn clear_at(code: &CodeList, at: usize) -> Option<u32>
    ensures told { result ≡ sign clear_of code.now.ops at }
    ensures next { IfSome result (λ x. at + 1 < 2 ^ 64) }
{
    let Op::Clear { slot } = op_at(code, at)? else {
        return None;
    };
    Some(slot)
}

/// At an address, the method that is called.
pub(crate) fn call_at(code: &CodeList, at: usize) -> Option<u32>
    ensures told { result ≡ sign call_of code.now.ops at }
    ensures next { IfSome result (λ x. at + 1 < 2 ^ 64) }
{
    let Op::Call { method } = op_at(code, at)? else {
        return None;
    };
    Some(method)
}

/// At an address, the field that is written.
pub(crate) fn put_at(code: &CodeList, at: usize) -> Option<u32>
    ensures told { result ≡ sign put_of code.now.ops at }
    ensures next { IfSome result (λ x. at + 1 < 2 ^ 64) }
{
    let Op::Put { index } = op_at(code, at)? else {
        return None;
    };
    Some(index)
}

/// At an address, an element is written.
pub(crate) fn put_element_at(code: &CodeList, at: usize) -> Option<()>
    ensures told { result ≡ sign put_element_of code.now.ops at }
    ensures next { IfSome result (λ x. at + 1 < 2 ^ 64) }
{
    let Op::PutElement = op_at(code, at)? else {
        return None;
    };
    Some(())
}

/// At an address, whether a result that nobody takes is released.
pub(crate) fn left_at(code: &CodeList, at: usize) -> Option<bool>
    ensures told { result ≡ sign left_of code.now.ops at }
    ensures next { IfSome result (λ x. at + 1 < 2 ^ 64) }
{
    match op_at(code, at)? {
        Op::Pop => Some(false),
        Op::Drop => Some(true),
        Op::Mark { .. } | Op::Int { .. } | Op::Bool { .. } | Op::Nil | Op::Load { .. } => None,
        Op::Clear { .. } | Op::Store { .. } | Op::Own { .. } | Op::Field { .. } | Op::IsNil => None,
        Op::Neg | Op::Add | Op::Sub | Op::Mul | Op::Div | Op::Rem | Op::Eq | Op::Ne => None,
        Op::Lt | Op::Le | Op::Gt | Op::Ge | Op::Not => None,
        Op::Jump { .. } | Op::JumpFalse { .. } | Op::And { .. } | Op::Or { .. } | Op::Check => None,
        Op::New { .. } | Op::NewTmp { .. } | Op::NewIso { .. } | Op::Pace => None,
        Op::Put { .. } | Op::Swap { .. } | Op::Freeze { .. } | Op::Merge { .. } => None,
        Op::Read | Op::More | Op::Room | Op::Call { .. } | Op::Ret | Op::RetVoid => None,
        Op::Enter { .. } | Op::EnterField { .. } | Op::Leave { .. } | Op::End { .. } => None,
        Op::Print | Op::Collect | Op::Halt => None,
        Op::NewArray { .. } | Op::NewTmpArray { .. } | Op::NewIsoArray { .. } => None,
        Op::Size | Op::Bound | Op::Element | Op::PutElement | Op::LeaveGiving { .. } => None,
    }
}

/// At an address, what asks a pacer.
pub(crate) fn pace_at(code: &CodeList, at: usize) -> Option<()>
    ensures told { result ≡ sign pace_of code.now.ops at }
    ensures next { IfSome result (λ x. at + 1 < 2 ^ 64) }
{
    let Op::Pace = op_at(code, at)? else {
        return None;
    };
    Some(())
}
