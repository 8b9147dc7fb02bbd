//! The classes of the generated program: above each function stands the text that it adds
//! (docs/language.md, "The generated program").

ghost use Rattle.std.specs.Prelude.{IfOk, OnOk};
ghost use Rattle.rg_tree.specs.Tree.{stmt};
ghost use Rattle.rg_tree.specs.Rows.RowTrees.{stmt_at, member_at};
ghost use Rattle.rg_tree.specs.Adds.{Adds};
ghost use Rattle.rg_tree.specs.Rows.RowsExist.{IsStmtNumber, IsMemberNumber};
ghost use Rattle.rg_make.specs.Generated as generated;
ghost use Rattle.rg_make.specs.Inner.Adds.{AddsClass};

use crate::builder::{
    add_block, add_field, add_if, add_let, add_method, add_name, add_set, add_stmt, add_while,
};
use crate::parts::{Expr, Fields, Head, Name, Operand, Path, Right, Stmt, Ty};
use rg_base::{Cap, Memory};
use rg_tree::{BinOp, ClassRow, Program};

/// `mut Node`
const NODE: Ty = Ty::Ref {
    cap: Cap::Mut,
    class: Name::Node,
};

/// `self.head`
const HEAD: Path = Path {
    base: None,
    fields: Fields::One(Name::Head),
};

/// `n`
const N: Path = Path {
    base: Some(Name::N),
    fields: Fields::None,
};

/// `n.value`
const N_VALUE: Path = Path {
    base: Some(Name::N),
    fields: Fields::One(Name::Value),
};

/// `n.next`
const N_NEXT: Path = Path {
    base: Some(Name::N),
    fields: Fields::One(Name::Next),
};

/// `v`
const V: Path = Path {
    base: Some(Name::V),
    fields: Fields::None,
};

/// `p`
const P: Path = Path {
    base: Some(Name::P),
    fields: Fields::None,
};

/// `p.value`
const P_VALUE: Path = Path {
    base: Some(Name::P),
    fields: Fields::One(Name::Value),
};

/// `p.next`
const P_NEXT: Path = Path {
    base: Some(Name::P),
    fields: Fields::One(Name::Next),
};

/// `p.next.next`
const P_NEXT_NEXT: Path = Path {
    base: Some(Name::P),
    fields: Fields::Two(Name::Next, Name::Next),
};

/// `go`
const GO: Path = Path {
    base: Some(Name::Go),
    fields: Fields::None,
};

/// `s`
const S: Path = Path {
    base: Some(Name::S),
    fields: Fields::None,
};

/// `class Node { value: int; next: mut Node; }`
pub fn add_node_class(program: &mut Program) -> Result<(), Memory>
    ensures { OnOk result (AddsClass program.old program.new generated.node_class) }
{
    let name = add_name(program, Name::Node)?;
    let value = add_field(program, Name::Value, Ty::Int)?;
    let next = add_field(program, Name::Next, NODE)?;
    let members = program.add_order(&[value, next])?;
    let _number = program.add_class(ClassRow {
        name,
        is_tmp: false,
        element: None,
        members,
        line: 1,
    })?;
    Ok(())
}

/// ```text
/// def mut push(v: int) {
///   let n: mut Node = new Node; n.value = v; n.next = self.head; self.head = n;
/// }
/// ```
fn add_push(program: &mut Program) -> Result<u32, Memory>
    ensures { IfOk result (λ n.
        Adds member_at IsMemberNumber program.old program.new n generated.push) }
{
    let make = Stmt::Let {
        name: Name::N,
        ty: NODE,
        right: Right::New { class: Name::Node },
    };
    let make = add_stmt(program, make)?;
    let value = add_set(program, N_VALUE, Expr::Path(V))?;
    let next = add_set(program, N_NEXT, Expr::Path(HEAD))?;
    let head = add_set(program, HEAD, Expr::Path(N))?;
    let body = add_block(program, &[make, value, next, head])?;
    let push = Head {
        receiver: Cap::Mut,
        name: Name::Push,
        param: Some(Name::V),
        result: None,
    };
    let number = add_method(program, push, body)?;
    Ok(number)
}

/// ```text
/// if p.next is nil { go = false; } else {
///   p.next = p.next.next; p = p.next; go = not p is nil;
/// }
/// ```
fn add_thin_step(program: &mut Program) -> Result<u32, Memory>
    ensures { IfOk result (λ n. Adds stmt_at IsStmtNumber program.old program.new n
        (stmt 1 generated.thin_step)) }
{
    let stop = add_set(program, GO, Expr::Bool(false))?;
    let first = add_block(program, &[stop])?;
    let skip = add_set(program, P_NEXT, Expr::Path(P_NEXT_NEXT))?;
    let step = add_set(program, P, Expr::Path(P_NEXT))?;
    let go = add_set(program, GO, Expr::IsThere(P))?;
    let second = add_block(program, &[skip, step, go])?;
    let number = add_if(program, Expr::IsNil(P_NEXT), first, second)?;
    Ok(number)
}

/// `while go { .. }`
fn add_thin_loop(program: &mut Program) -> Result<u32, Memory>
    ensures { IfOk result (λ n. Adds stmt_at IsStmtNumber program.old program.new n
        (stmt 1 generated.thin_loop)) }
{
    let step = add_thin_step(program)?;
    let body = add_block(program, &[step])?;
    let number = add_while(program, Expr::Path(GO), body)?;
    Ok(number)
}

/// ```text
/// def mut thin() {
///   let p: mut Node = self.head;
///   let go: bool = not p is nil;
///   while go { .. }
/// }
/// ```
fn add_thin(program: &mut Program) -> Result<u32, Memory>
    ensures { IfOk result (λ n.
        Adds member_at IsMemberNumber program.old program.new n generated.thin) }
{
    let first = add_let(program, Name::P, NODE, Expr::Path(HEAD))?;
    let go = add_let(program, Name::Go, Ty::Bool, Expr::IsThere(P))?;
    let steps = add_thin_loop(program)?;
    let body = add_block(program, &[first, go, steps])?;
    let thin = Head {
        receiver: Cap::Mut,
        name: Name::Thin,
        param: None,
        result: None,
    };
    let number = add_method(program, thin, body)?;
    Ok(number)
}

/// `while not p is nil { s = s + p.value; p = p.next; }`
fn add_sum_loop(program: &mut Program) -> Result<u32, Memory>
    ensures { IfOk result (λ n. Adds stmt_at IsStmtNumber program.old program.new n
        (stmt 1 generated.sum_loop)) }
{
    let total = Expr::Binary {
        op: BinOp::Add,
        left: Operand::Path(S),
        right: Operand::Path(P_VALUE),
    };
    let more = add_set(program, S, total)?;
    let next = add_set(program, P, Expr::Path(P_NEXT))?;
    let body = add_block(program, &[more, next])?;
    let number = add_while(program, Expr::IsThere(P), body)?;
    Ok(number)
}

/// ```text
/// def paused sum(): int {
///   let s: int = 0;
///   let p: paused Node = self.head;
///   while not p is nil { .. }
///   return s;
/// }
/// ```
fn add_sum(program: &mut Program) -> Result<u32, Memory>
    ensures { IfOk result (λ n.
        Adds member_at IsMemberNumber program.old program.new n generated.sum) }
{
    let node = Ty::Ref {
        cap: Cap::Paused,
        class: Name::Node,
    };
    let none = add_let(program, Name::S, Ty::Int, Expr::Int(0))?;
    let first = add_let(program, Name::P, node, Expr::Path(HEAD))?;
    let steps = add_sum_loop(program)?;
    let total = add_stmt(program, Stmt::Return(S))?;
    let body = add_block(program, &[none, first, steps, total])?;
    let sum = Head {
        receiver: Cap::Paused,
        name: Name::Sum,
        param: None,
        result: Some(Ty::Int),
    };
    let number = add_method(program, sum, body)?;
    Ok(number)
}

/// `class List { head: mut Node; .. }`
pub fn add_list_class(program: &mut Program) -> Result<(), Memory>
    ensures { OnOk result (AddsClass program.old program.new generated.list_class) }
{
    let name = add_name(program, Name::List)?;
    let head = add_field(program, Name::Head, NODE)?;
    let push = add_push(program)?;
    let thin = add_thin(program)?;
    let sum = add_sum(program)?;
    let members = program.add_order(&[head, push, thin, sum])?;
    let _number = program.add_class(ClassRow {
        name,
        is_tmp: false,
        element: None,
        members,
        line: 1,
    })?;
    Ok(())
}
