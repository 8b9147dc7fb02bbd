//! Calls and right sides (docs/language.md, "Canonical text").

ghost use Rattle.std.specs.Prelude.{◌≡◌, ℕ, ◌<◌, ◌++◌, codes, length, map, option_map, OnOk};
ghost use Rattle.std.specs.Prelude.{IfSome};
ghost use Rattle.rg_tree.specs.Canonical.{arg_texts, call_text, joined, path_text, right_text};
ghost use Rattle.rg_tree.specs.Canonical.{size_text};
ghost use Rattle.rg_tree.specs.Rows.RowTrees.{call_of, expr_at, path_of, right_of};
ghost use Rattle.rg_tree.specs.Rows.RowsExist.{IsCallIn, IsNameIn, IsPathIn, IsRightIn};
ghost use Rattle.rg_tree.specs.Rows.RowsExist.{IsExprNumber, IsSpanBelow};
ghost use Rattle.rg_tree.specs.Rows.Tables.{name_at, numbers_in};

use crate::expressions::{write_expr, write_index};
use crate::names::{write_name, write_path};
use crate::words::manager_bytes;
use rg_base::{ByteList, Memory};
use rg_tree::{CallRow, Path, Program, Right, Span};

// Appends arguments in parentheses, with a comma and one blank between.
fn write_args(program: &Program, args: Span, out: &mut ByteList) -> Result<(), Memory>
    requires { IsSpanBelow program.now (length program.now.exprs) args }
    ensures { OnOk result (let t = program.now in out.new ≡ out.old
        ++ codes "(" ++ joined (arg_texts (map (expr_at t) (numbers_in t args))) ++ codes ")") }
{
    out.extend(b"(")?;
    for (i, arg) in program.order(args).iter().enumerate() {
        if i > 0 {
            out.extend(b", ")?;
        }
        write_expr(program, *arg, out)?;
    }
    out.extend(b")")
}

/// Appends a call.
pub fn write_call(program: &Program, call: CallRow, out: &mut ByteList) -> Result<(), Memory>
    requires { IsCallIn program.now call }
    ensures { OnOk result (out.new ≡ out.old ++ call_text (call_of program.now call)) }
{
    write_target(program, call.path, call.method, out)?;
    write_args(program, call.args, out)
}

// Appends what stands in front of the arguments of a call.
fn write_target(
    program: &Program,
    path: Path,
    method: u32,
    out: &mut ByteList,
) -> Result<(), Memory>
    requires path { IsPathIn program.now path }
    requires method { IsNameIn program.now method }
    ensures { OnOk result (let t = program.now in out.new ≡ out.old
        ++ (codes "call " ++ path_text (path_of t path) ++ codes "." ++ name_at t method)) }
{
    out.extend(b"call ")?;
    write_path(program, path, out)?;
    out.extend(b".")?;
    write_name(program, method, out)
}

// Appends the size of an array behind its class, where there is one.
fn write_size(program: &Program, size: Option<u32>, out: &mut ByteList) -> Result<(), Memory>
    requires { IfSome size (IsExprNumber program.now) }
    ensures { OnOk result (out.new
        ≡ out.old ++ size_text (option_map (expr_at program.now) size)) }
{
    match size {
        None => Ok(()),
        Some(e) => {
            out.extend(b" ")?;
            write_index(program, e, out)
        }
    }
}

/// Appends a right side.
pub fn write_right(program: &Program, right: Right, out: &mut ByteList) -> Result<(), Memory>
    requires { IsRightIn program.now right }
    ensures { OnOk result (out.new ≡ out.old ++ right_text (right_of program.now right)) }
{
    match right {
        Right::Expr(e) => write_expr(program, e, out),
        Right::New { name, size } => {
            out.extend(b"new ")?;
            write_name(program, name, out)?;
            write_size(program, size, out)
        }
        Right::NewTmp { name, size } => {
            out.extend(b"new tmp ")?;
            write_name(program, name, out)?;
            write_size(program, size, out)
        }
        Right::NewIso {
            name,
            size,
            manager,
        } => {
            out.extend(b"new iso ")?;
            write_name(program, name, out)?;
            write_size(program, size, out)?;
            out.extend(b" in ")?;
            out.extend(manager_bytes(manager))
        }
        Right::Freeze(name) => {
            out.extend(b"freeze ")?;
            write_name(program, name, out)
        }
        Right::Merge(name) => {
            out.extend(b"merge ")?;
            write_name(program, name, out)
        }
        Right::Read => out.extend(b"read"),
        Right::More => out.extend(b"more"),
        Right::Call(call) => write_call(program, call, out),
    }
}
