//! Parts of blocks, as rows (docs/architecture.md, "Modules").

ghost use Rattle.std.specs.Prelude.{◌≡◌, ℕ, List, ◌∷◌, IfOk, Option, option_map};
ghost use Rattle.rg_tree.specs.Tree as tree;
ghost use Rattle.rg_tree.specs.Rows.RowTrees.{stmt_at, variable_of};
ghost use Rattle.rg_tree.specs.Rows.RowsExist.{IsStmtNumber, IsVariableIn};
ghost use Rattle.rg_tree.specs.Adds.{Extends, Adds};
ghost use Rattle.rg_verify_expressions.specs.Naming.{variable_name};
ghost use Rattle.rg_verify_expressions.specs.Raised.{Raised, named};
ghost use Rattle.rg_verify_expressions.specs.Rows.{IsTree, IsPath};
ghost use Rattle.rg_verify_expressions.specs.Statements as statements;
ghost use Rattle.rg_verify_expressions.specs.Blocks as blocks;
ghost use Rattle.rg_raise.specs.Telling.{kind_of, IsKindRow};
ghost use Rattle.rg_blocks.specs.Blocks.{FindsPath, AddsBlock, IsWindowSaid, Enters};

use crate::said::WindowSaid;
use rg_base::Memory;
use rg_raise::{After, KindSaid};
use rg_tree::{ExprRow, Path, Program, Span, StmtKind, StmtRow};
use rg_verify_expressions::{Body, add_name};

/// The path that an expression is, where it is one.
pub(crate) fn path_in(body: Body, program: &Program, row: u32) -> Option<Path>
    requires { (e : Raised) × IsTree program.now row (named body.in_method e) }
    ensures { (e : Raised) → IsTree program.now row (named body.in_method e) →
        FindsPath program.now body.in_method (blocks.path_in e) result }
{
    let ExprRow::Path(path) = program.expr(row) else {
        return None;
    };
    Some(path)
}

/// Adds the name of the variable that gives a bridge, if one does.
pub(crate) fn giving_row(
    body: Body,
    program: &mut Program,
    given: Option<u32>,
) -> Result<Option<u32>, Memory>
    ensures adds { IfOk result (λ o. Adds variable_of IsVariableIn program.old program.new o
        (option_map variable_name given)) }
    ensures grows { Extends program.old program.new }
{
    let Some(slot) = given else {
        return Ok(None);
    };
    let name = add_name(body.alloc, program, b'v', slot)?;
    Ok(Some(name))
}

/// Adds a statement, whose names, expressions and blocks are there.
pub(crate) fn put_stmt(program: &mut Program, line: u64, kind: StmtKind) -> Result<u32, Memory>
    requires { IsKindRow program.old kind }
    ensures adds { IfOk result (λ n. Adds stmt_at IsStmtNumber program.old program.new n
        (tree.stmt line (kind_of program.old kind))) }
    ensures grows { Extends program.old program.new }
{
    let number = program.add_stmt(StmtRow { line, kind })?;
    Ok(number)
}

/// Keeps statements as a block.
pub(crate) fn put_block(program: &mut Program, numbers: &[u32]) -> Result<Span, Memory>
    ensures adds { IfOk result (λ s. AddsBlock program.old program.new numbers.now s) }
    ensures grows { Extends program.old program.new }
{
    let span = program.add_order(numbers)?;
    Ok(span)
}

/// A window, whose path and block are there.
pub(crate) fn entered(
    body: Body,
    program: &mut Program,
    path: Path,
    bridge: u32,
    window: WindowSaid,
) -> Result<KindSaid, Memory>
    ensures enters { (q : tree.Path) (w : ℕ × statements.Block × Option ℕ) →
        IsPath program.old path q → IsWindowSaid body.in_method bridge program.old window w →
        IfOk result (Enters body.in_method bridge program.old program.new q w) }
    ensures grows { Extends program.old program.new }
{
    let name = add_name(body.alloc, program, b'v', bridge)?;
    let giving = giving_row(body, program, window.given)?;
    let row = StmtKind::Enter {
        path,
        name,
        body: window.block,
        giving,
    };
    let after = After::Same;
    Ok(KindSaid { row, after })
}
