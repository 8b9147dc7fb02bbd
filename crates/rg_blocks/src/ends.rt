//! Where statements begin, and where blocks end (docs/architecture.md, "Modules").

ghost use Rattle.std.specs.Prelude.{◌≡◌, ◌+◌, ◌<◌, ◌^◌, IfSome};
ghost use Rattle.rg_verify_expressions.specs.Signs.{end_of};
ghost use Rattle.rg_verify_expressions.specs.Blocks.{ended, window_end, starts};

use crate::signs::{closing_at, end_at, leave_at};
use rg_code::CodeList;
use rg_raise::mark_at;

/// The address behind the end of a block of a statement of a line.
pub(crate) fn behind_end(code: &CodeList, line: u64, slots: usize, at: usize) -> Option<usize>
    ensures { result ≡ ended end_of code.now.ops line slots at }
{
    if mark_at(code, at)? != line {
        return None;
    }
    if end_at(code, at + 1)? as usize != slots {
        return None;
    }
    Some(at + 2)
}

/// The end of a window of a statement of a line: the slot that gives its bridge, and the address
/// behind it.
pub(crate) fn behind_leave(
    code: &CodeList,
    line: u64,
    slots: usize,
    at: usize,
) -> Option<(Option<u32>, usize)>
    ensures { result ≡ window_end code.now.ops line slots at }
{
    if mark_at(code, at)? != line {
        return None;
    }
    let leave = leave_at(code, at + 1)?;
    if leave.slot as usize != slots {
        return None;
    }
    Some((leave.given, at + 2))
}

/// The line of the statement that begins at an address; none does where the block ends.
pub(crate) fn starts_at(code: &CodeList, at: usize) -> Option<u64>
    ensures told { result ≡ starts code.now.ops at }
    ensures next { IfSome result (λ x. at + 1 < 2 ^ 64) }
{
    let line = mark_at(code, at)?;
    match closing_at(code, at + 1) {
        Some(_) => None,
        None => Some(line),
    }
}
