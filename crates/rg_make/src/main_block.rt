//! Main of the generated program: above each function stands the text that it adds
//! (docs/language.md, "The generated program").

ghost use Rattle.std.specs.Prelude.{◌≡◌, IfOk, OnOk};
ghost use Rattle.rg_base.specs.declared.words.Manager.TheVariants as manager;
ghost use Rattle.rg_tree.specs.Tree.{stmt, declare, int, result_of};
ghost use Rattle.rg_tree.specs.Rows.RowTrees.{expr_at, stmt_at, block_of, classes_of, program_of};
ghost use Rattle.rg_tree.specs.Rows.RowsExist.{IsExprNumber, IsBlockIn, IsStmtNumber};
ghost use Rattle.rg_tree.specs.Adds.{Adds};
ghost use Rattle.rg_make.specs.Generated as generated;
ghost use Rattle.rg_make.specs.declared.parts.Name.TheVariants as name_is;
ghost use Rattle.rg_make.specs.Inner.Parts.{name_text, call_tree};

use crate::builder::{
    LIST, add_binary, add_block, add_enter, add_let, add_name, add_operand, add_set, add_stmt,
    add_while, path_row, put_expr, put_stmt,
};
use crate::parts::{Expr, Fields, Name, Operand, Path, Right, Stmt, Ty};
use rg_base::{Cap, Manager, Memory};
use rg_tree::{BinOp, CallRow, ExprRow, Program, Span, StmtKind};

/// The numbers of a program: its SIZE, A and B.
#[derive(Clone, Copy)]
pub struct Numbers {
    pub size: u32,
    pub step: u32,
    pub start: u32,
}

/// `i`
const I: Path = Path {
    base: Some(Name::I),
    fields: Fields::None,
};

/// `a`
const A: Path = Path {
    base: Some(Name::A),
    fields: Fields::None,
};

/// `b`
const B: Path = Path {
    base: Some(Name::B),
    fields: Fields::None,
};

/// `c`
const C: Path = Path {
    base: Some(Name::C),
    fields: Fields::None,
};

/// `box`
const BOX: Path = Path {
    base: Some(Name::Boxed),
    fields: Fields::None,
};

/// `i * A + B`
fn add_total(program: &mut Program, n: Numbers) -> Result<u32, Memory>
    ensures { IfOk result (λ e. Adds expr_at IsExprNumber program.old program.new e
        (generated.total n.step n.start)) }
{
    let product = add_binary(program, BinOp::Mul, Operand::Path(I), Operand::Int(n.step))?;
    let start = add_operand(program, Operand::Int(n.start))?;
    let total = ExprRow::Binary {
        op: BinOp::Add,
        left: product,
        right: start,
    };
    let number = put_expr(program, total)?;
    Ok(number)
}

/// `(i * A + B) % 1000`
fn add_mixed(program: &mut Program, n: Numbers) -> Result<u32, Memory>
    ensures { IfOk result (λ e. Adds expr_at IsExprNumber program.old program.new e
        (generated.mixed n.step n.start)) }
{
    let total = add_total(program, n)?;
    let modulus = add_operand(program, Operand::Int(1000))?;
    let mixed = ExprRow::Binary {
        op: BinOp::Rem,
        left: total,
        right: modulus,
    };
    let number = put_expr(program, mixed)?;
    Ok(number)
}

/// `call l.push((i * A + B) % 1000);`
fn add_push_call(program: &mut Program, n: Numbers) -> Result<u32, Memory>
    ensures { IfOk result (λ s. Adds stmt_at IsStmtNumber program.old program.new s
        (stmt 1 (generated.push_call n.step n.start))) }
{
    let path = path_row(program, LIST)?;
    let method = add_name(program, Name::Push)?;
    let mixed = add_mixed(program, n)?;
    let args = program.add_order(&[mixed])?;
    let number = put_stmt(program, StmtKind::Call(CallRow { path, method, args }))?;
    Ok(number)
}

/// `while i <= SIZE { call l.push((i * A + B) % 1000); i = i + 1; }`
fn add_fill(program: &mut Program, n: Numbers) -> Result<u32, Memory>
    ensures { IfOk result (λ s. Adds stmt_at IsStmtNumber program.old program.new s
        (stmt 1 (generated.fill n.size n.step n.start))) }
{
    let push = add_push_call(program, n)?;
    let next = Expr::Binary {
        op: BinOp::Add,
        left: Operand::Path(I),
        right: Operand::Int(1),
    };
    let next = add_set(program, I, next)?;
    let body = add_block(program, &[push, next])?;
    let within = Expr::Binary {
        op: BinOp::Le,
        left: Operand::Path(I),
        right: Operand::Int(n.size),
    };
    let number = add_while(program, within, body)?;
    Ok(number)
}

/// `let a: int = call l.sum();`
fn add_sum_of(program: &mut Program, name: Name) -> Result<u32, Memory>
    ensures { IfOk result (λ s. Adds stmt_at IsStmtNumber program.old program.new s
        (stmt 1 (declare (name_text name) int (result_of (call_tree name_is.Sum))))) }
{
    let sum = Stmt::Let {
        name,
        ty: Ty::Int,
        right: Right::Call { method: Name::Sum },
    };
    let number = add_stmt(program, sum)?;
    Ok(number)
}

/// ```text
/// let i: int = 1;
/// while i <= SIZE { call l.push((i * A + B) % 1000); i = i + 1; }
/// let a: int = call l.sum();
/// print a;
/// call l.thin();
/// let b: int = call l.sum();
/// print b;
/// collect;
/// i = 1;
/// while i <= SIZE { call l.push((i * A + B) % 1000); i = i + 1; }
/// let c: int = call l.sum();
/// print c;
/// ```
fn add_inner(program: &mut Program, n: Numbers) -> Result<Span, Memory>
    ensures { IfOk result (λ s. Adds block_of IsBlockIn program.old program.new s
        (generated.inner_block n.size n.step n.start)) }
{
    let first = add_let(program, Name::I, Ty::Int, Expr::Int(1))?;
    let fill = add_fill(program, n)?;
    let sum_a = add_sum_of(program, Name::A)?;
    let print_a = add_stmt(program, Stmt::Print(A))?;
    let thin = add_stmt(program, Stmt::Call { method: Name::Thin })?;
    let sum_b = add_sum_of(program, Name::B)?;
    let print_b = add_stmt(program, Stmt::Print(B))?;
    let collect = add_stmt(program, Stmt::Collect)?;
    let again = add_set(program, I, Expr::Int(1))?;
    let refill = add_fill(program, n)?;
    let sum_c = add_sum_of(program, Name::C)?;
    let print_c = add_stmt(program, Stmt::Print(C))?;
    let numbers = [
        first, fill, sum_a, print_a, thin, sum_b, print_b, collect, again, refill, sum_c, print_c,
    ];
    let block = add_block(program, &numbers)?;
    Ok(block)
}

/// ```text
/// main arena {
///   let box: iso List = new iso List in trace;
///   enter box as l { .. }
/// }
/// ```
pub fn add_main(program: &mut Program, n: Numbers) -> Result<(), Memory>
    ensures { OnOk result (program_of program.new ≡ record {
      classes = classes_of program.old;
      manager = manager.Arena;
      body = generated.main_block n.size n.step n.start;
      line = 1;
    }) }
{
    let make = Stmt::Let {
        name: Name::Boxed,
        ty: Ty::Ref {
            cap: Cap::Iso,
            class: Name::List,
        },
        right: Right::NewIso {
            class: Name::List,
            manager: Manager::Trace,
        },
    };
    let make = add_stmt(program, make)?;
    let inner = add_inner(program, n)?;
    let enter = add_enter(program, BOX, Name::L, inner)?;
    let body = add_block(program, &[make, enter])?;
    program.set_main(Manager::Arena, body, 1);
    Ok(())
}
