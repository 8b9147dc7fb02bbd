//! Statements and blocks, each on lines of their own (docs/language.md, "Canonical text").

ghost use Rattle.std.specs.Prelude.{◌≡◌, ℕ, ◌<◌, suc, [], ◌∷◌, ◌++◌, codes, length, option_map};
ghost use Rattle.std.specs.Prelude.{OnOk, IfSome};
ghost use Rattle.rg_tree.specs.Canonical.{block_text, else_text, expr_text, giving_text, line_of};
ghost use Rattle.rg_tree.specs.Canonical.{path_text, right_text, stmt_text, ty_text};
ghost use Rattle.rg_tree.specs.Rows.RowTrees.{block_of, else_over, expr_at, path_of, right_of};
ghost use Rattle.rg_tree.specs.Rows.RowTrees.{stmt_at, type_of};
ghost use Rattle.rg_tree.specs.Rows.RowsExist.{IsBlockIn, IsExprNumber, IsNameIn, IsPathIn};
ghost use Rattle.rg_tree.specs.Rows.RowsExist.{IsRightIn, IsSpanBelow, IsTypeIn};
ghost use Rattle.rg_tree.specs.Rows.Tables.{name_at};

use crate::calls::{write_call, write_right};
use crate::expressions::{write_expr, write_index};
use crate::lines::{close_block, deeper, indent};
use crate::names::{write_name, write_path, write_type};
use rg_base::{ByteList, Memory};
use rg_tree::{Path, Program, Right, Span, StmtKind, TypeRow};

/// Appends the lines of a statement.
#[cycle(statement)]
pub fn write_stmt(program: &Program, n: u32, depth: u32, out: &mut ByteList) -> Result<(), Memory>
    requires { n < length program.now.stmts }
    ensures { OnOk result (out.new ≡ out.old ++ stmt_text depth (stmt_at program.now n)) }
{
    indent(depth, out)?;
    match program.stmt(n).kind {
        StmtKind::Let { name, ty, right } => write_let(program, name, ty, right, out),
        StmtKind::Set { path, right } => write_set(program, path, right, out),
        StmtKind::SetAt { path, index, right } => { write_set_at(program, path, index, right, out) }
        StmtKind::Call(call) => {
            write_call(program, call, out)?;
            out.extend(b";\n")
        }
        StmtKind::Swap { name, path } => write_swap(program, name, path, out),
        StmtKind::If { test, yes, no } => {
            out.extend(b"if ")?;
            write_expr(program, test, out)?;
            write_block(program, yes, depth, out)?;
            write_else(program, no, depth, out)
        }
        StmtKind::While { test, body } => {
            out.extend(b"while ")?;
            write_expr(program, test, out)?;
            write_block(program, body, depth, out)?;
            close_block(depth, out)
        }
        StmtKind::Enter {
            path,
            name,
            body,
            giving,
        } => {
            write_enter(program, path, name, out)?;
            write_block(program, body, depth, out)?;
            close_enter(program, giving, depth, out)
        }
        StmtKind::Print(e) => write_of(program, b"print ", e, out),
        StmtKind::Collect => out.extend(b"collect;\n"),
        StmtKind::Return(e) => write_of(program, b"return ", e, out),
    }
}

/// Appends what stands behind the first block of an `if`, from the line that closes it.
#[cycle(statement)]
fn write_else(
    program: &Program,
    no: Option<Span>,
    depth: u32,
    out: &mut ByteList,
) -> Result<(), Memory>
    requires { IfSome no (IsBlockIn program.now) }
    ensures { OnOk result (let t = program.now in
        out.new ≡ out.old ++ else_text depth (else_over t (stmt_at t) no)) }
{
    match no {
        None => close_block(depth, out),
        Some(block) => {
            indent(depth, out)?;
            out.extend(b"} else")?;
            write_block(program, block, depth, out)?;
            close_block(depth, out)
        }
    }
}

/// Appends ` {` and the lines of the statements of a block.
#[cycle(statement)]
pub fn write_block(
    program: &Program,
    block: Span,
    depth: u32,
    out: &mut ByteList,
) -> Result<(), Memory>
    requires { IsBlockIn program.now block }
    ensures { OnOk result (out.new
        ≡ out.old ++ codes " {" ++ 10 ∷ [] ++ block_text (suc depth) (block_of program.now block)) }
{
    out.extend(b" {\n")?;
    let within = deeper(depth)?;
    for n in program.order(block) {
        write_stmt(program, *n, within, out)?;
    }
    Ok(())
}

// Appends a `let` behind its indent.
fn write_let(
    program: &Program,
    name: u32,
    ty: TypeRow,
    right: Right,
    out: &mut ByteList,
) -> Result<(), Memory>
    requires name { IsNameIn program.now name }
    requires ty { IsTypeIn program.now ty }
    requires right { IsRightIn program.now right }
    ensures { OnOk result (let t = program.now in
        out.new ≡ out.old ++ (codes "let " ++ name_at t name ++ codes ": " ++ ty_text (type_of t ty)
        ++ codes " = " ++ right_text (right_of t right) ++ codes ";\n")) }
{
    out.extend(b"let ")?;
    write_name(program, name, out)?;
    out.extend(b": ")?;
    write_type(program, ty, out)?;
    out.extend(b" = ")?;
    write_right(program, right, out)?;
    out.extend(b";\n")
}

// Appends an assignment behind its indent.
fn write_set(program: &Program, path: Path, right: Right, out: &mut ByteList) -> Result<(), Memory>
    requires path { IsPathIn program.now path }
    requires right { IsRightIn program.now right }
    ensures { OnOk result (let t = program.now in out.new ≡ out.old
        ++ (path_text (path_of t path) ++ codes " = "
        ++ right_text (right_of t right) ++ codes ";\n")) }
{
    write_path(program, path, out)?;
    out.extend(b" = ")?;
    write_right(program, right, out)?;
    out.extend(b";\n")
}

// Appends an assignment to an element behind its indent.
fn write_set_at(
    program: &Program,
    path: Path,
    index: u32,
    right: Right,
    out: &mut ByteList,
) -> Result<(), Memory>
    requires path { IsPathIn program.now path }
    requires index { IsExprNumber program.now index }
    requires right { IsRightIn program.now right }
    ensures { OnOk result (let t = program.now in out.new ≡ out.old
        ++ (path_text (path_of t path) ++ codes "[" ++ expr_text (expr_at t index)
        ++ codes "] = " ++ right_text (right_of t right) ++ codes ";\n")) }
{
    write_path(program, path, out)?;
    write_index(program, index, out)?;
    out.extend(b" = ")?;
    write_right(program, right, out)?;
    out.extend(b";\n")
}

// Appends a `swap` behind its indent.
fn write_swap(program: &Program, name: u32, path: Path, out: &mut ByteList) -> Result<(), Memory>
    requires name { IsNameIn program.now name }
    requires path { IsPathIn program.now path }
    ensures { OnOk result (let t = program.now in out.new ≡ out.old
        ++ (codes "swap " ++ name_at t name ++ codes ", "
        ++ path_text (path_of t path) ++ codes ";\n")) }
{
    out.extend(b"swap ")?;
    write_name(program, name, out)?;
    out.extend(b", ")?;
    write_path(program, path, out)?;
    out.extend(b";\n")
}

// Appends what stands in front of the block of an `enter`, behind its indent.
fn write_enter(program: &Program, path: Path, name: u32, out: &mut ByteList) -> Result<(), Memory>
    requires path { IsPathIn program.now path }
    requires name { IsNameIn program.now name }
    ensures { OnOk result (let t = program.now in out.new ≡ out.old
        ++ (codes "enter " ++ path_text (path_of t path) ++ codes " as " ++ name_at t name)) }
{
    out.extend(b"enter ")?;
    write_path(program, path, out)?;
    out.extend(b" as ")?;
    write_name(program, name, out)
}

// Appends the line that closes the block of an `enter`.
fn close_enter(
    program: &Program,
    giving: Option<u32>,
    depth: u32,
    out: &mut ByteList,
) -> Result<(), Memory>
    requires { IfSome giving (IsNameIn program.now) }
    ensures { OnOk result (let t = program.now in out.new ≡ out.old
        ++ line_of depth (codes "}" ++ giving_text (option_map (name_at t) giving))) }
{
    match giving {
        None => close_block(depth, out),
        Some(name) => {
            indent(depth, out)?;
            out.extend(b"} giving ")?;
            write_name(program, name, out)?;
            out.extend(b";\n")
        }
    }
}

// Appends a statement that is a word and an expression, behind its indent.
fn write_of(program: &Program, word: &[u8], e: u32, out: &mut ByteList) -> Result<(), Memory>
    requires { IsExprNumber program.now e }
    ensures { OnOk result (out.new ≡ out.old
        ++ (word.now ++ expr_text (expr_at program.now e) ++ codes ";\n")) }
{
    out.extend(word)?;
    write_expr(program, e, out)?;
    out.extend(b";\n")
}
