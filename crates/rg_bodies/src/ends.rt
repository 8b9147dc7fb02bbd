//! Where bodies end (docs/architecture.md, "Modules").

ghost use Rattle.std.specs.Prelude.{◌≡◌, ◌+◌, ◌<◌, ◌^◌, IfSome};
ghost use Rattle.rg_verify_expressions.specs.Signs.{end_of};
ghost use Rattle.rg_verify_expressions.specs.Statements.{Block};
ghost use Rattle.rg_verify_expressions.specs.Blocks.{sign};
ghost use Rattle.rg_verify_expressions.specs.Standing as standing;
ghost use Rattle.rg_bodies.specs.Bodies as bodies;
ghost use Rattle.rg_bodies.specs.Bodies.{halt_of, return_void_of};
ghost use Rattle.rg_bodies.specs.Inner.Ends as inner;
ghost use Rattle.rg_bodies.specs.Inner.Ends.{return_of};

use crate::ending::Ending;
use rg_code::{CodeList, Op};
use rg_raise::{mark_at, op_at};

// At an address, the slot from which on a block's end takes slots away.
fn end_at(code: &CodeList, at: usize) -> Option<u32>
    ensures told { result ≡ sign end_of code.now.ops at }
    ensures next { IfSome result (λ x. at + 1 < 2 ^ 64) }
{
    let Op::End { slot } = op_at(code, at)? else {
        return None;
    };
    Some(slot)
}

// At an address, the end of a run.
fn halt_at(code: &CodeList, at: usize) -> Option<()>
    ensures told { result ≡ sign halt_of code.now.ops at }
    ensures next { IfSome result (λ x. at + 1 < 2 ^ 64) }
{
    let Op::Halt = op_at(code, at)? else {
        return None;
    };
    Some(())
}

// At an address, the end of a call without a result.
fn return_void_at(code: &CodeList, at: usize) -> Option<()>
    ensures told { result ≡ sign return_void_of code.now.ops at }
    ensures next { IfSome result (λ x. at + 1 < 2 ^ 64) }
{
    let Op::RetVoid = op_at(code, at)? else {
        return None;
    };
    Some(())
}

// At an address, the end of a call with a result.
fn return_at(code: &CodeList, at: usize) -> Option<()>
    ensures { result ≡ sign return_of code.now.ops at }
{
    let Op::Ret = op_at(code, at)? else {
        return None;
    };
    Some(())
}

// Whether code from an address up to another one ends by `ret`.
fn is_returned(code: &CodeList, from: usize, end: usize) -> bool
    ensures { result ≡ inner.is_returned code.now.ops from end }
{
    if end <= from {
        return false;
    }
    match return_at(code, end - 1) {
        Some(()) => true,
        None => false,
    }
}

// The end of main.
fn main_end(code: &CodeList, at: usize) -> Option<(u64, usize)>
    ensures { result ≡ bodies.main_end code.now.ops at }
{
    let line = mark_at(code, at)?;
    if end_at(code, at + 1)? != 0 {
        return None;
    }
    halt_at(code, at + 2)?;
    Some((line, at + 3))
}

// The end of a method without a result.
fn plain_end(code: &CodeList, at: usize) -> Option<(u64, usize)>
    ensures { result ≡ bodies.plain_end code.now.ops at }
{
    let line = mark_at(code, at)?;
    return_void_at(code, at + 1)?;
    Some((line, at + 2))
}

/// The end of a body whose block stands from an address up to another one: the line of the mark
/// there, 0 where none stands there, and the address behind the end.
pub(crate) fn body_end(
    code: &CodeList,
    ending: Ending,
    from: usize,
    at: usize,
) -> Option<(u64, usize)>
    ensures { (b : Block) → standing.returns b ≡ inner.is_returned code.now.ops from at →
        result ≡ bodies.end_told code.now.ops ending b at }
{
    match ending {
        Ending::Main => main_end(code, at),
        Ending::Plain => plain_end(code, at),
        Ending::Giving => {
            if !is_returned(code, from, at) {
                return None;
            }
            Some((0, at))
        }
    }
}
