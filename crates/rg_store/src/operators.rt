//! Operators on values (docs/language.md, "Steps"). A value of another kind than is needed counts
//! as 0, `false` or nil.

ghost use Rattle.std.specs.Prelude.{◌*ℤ◌, ◌+ℤ◌, ◌-ℤ◌, ◌≡◌, int_div, int_rem, neg_ℤ};
ghost use Rattle.rg_rules.specs.Values.{as_bool, as_int, decides, divided, is_nil_value};
ghost use Rattle.rg_rules.specs.Values.{number_value, operate, same_value};
ghost use Rattle.rg_store.specs.Inner.Overflow.{unless_overflow};

use rg_base::{Trap, Val};
use rg_tree::BinOp;

/// The number that a value is.
pub fn as_int(v: Val) -> i64
    ensures { result ≡ as_int v }
{
    match v {
        Val::Int(z) => z,
        Val::Nil | Val::Bool(_) | Val::Obj(_) => 0,
    }
}

/// The truth value that a value is.
pub fn as_bool(v: Val) -> bool
    ensures { result ≡ as_bool v }
{
    match v {
        Val::Bool(b) => b,
        Val::Nil | Val::Int(_) | Val::Obj(_) => false,
    }
}

/// Whether a value leads to no object.
pub fn is_nil(v: Val) -> bool
    ensures { result ≡ is_nil_value v }
{
    match v {
        Val::Nil | Val::Int(_) | Val::Bool(_) => true,
        Val::Obj(_) => false,
    }
}

/// A number, or the trap where there is none of 64 bits.
fn unless_overflow(z: Option<i64>) -> Result<Val, Trap>
    ensures { result ≡ unless_overflow z }
{
    match z {
        Some(z) => Ok(Val::Int(z)),
        None => Err(Trap::Overflow),
    }
}

fn sum(a: i64, b: i64) -> Result<Val, Trap>
    ensures { result ≡ number_value (a +ℤ b) }
{
    unless_overflow(a.checked_add(b))
}

fn difference(a: i64, b: i64) -> Result<Val, Trap>
    ensures { result ≡ number_value (a -ℤ b) }
{
    unless_overflow(a.checked_sub(b))
}

fn product(a: i64, b: i64) -> Result<Val, Trap>
    ensures { result ≡ number_value (a *ℤ b) }
{
    unless_overflow(a.checked_mul(b))
}

fn quotient(a: i64, b: i64) -> Result<Val, Trap>
    ensures { result ≡ divided a b (int_div a b) }
{
    if b == 0 {
        return Err(Trap::Zero);
    }
    unless_overflow(a.checked_div(b))
}

fn remainder(a: i64, b: i64) -> Result<Val, Trap>
    ensures { result ≡ divided a b (int_rem a b) }
{
    if b == 0 {
        return Err(Trap::Zero);
    }
    unless_overflow(a.checked_rem(b))
}

/// The number below 0 that is as far from it.
pub fn negative(v: Val) -> Result<Val, Trap>
    ensures { result ≡ number_value (neg_ℤ (as_int v)) }
{
    let z = as_int(v);
    unless_overflow(z.checked_neg())
}

/// Whether two values are equal: references are where both lead to one object or both are nil.
fn is_same(a: Val, b: Val) -> bool
    ensures { result ≡ same_value a b }
{
    match (a, b) {
        (Val::Nil, Val::Nil) => true,
        (Val::Int(x), Val::Int(y)) => x == y,
        (Val::Bool(x), Val::Bool(y)) => x == y,
        (Val::Obj(x), Val::Obj(y)) => x == y,
        _ => false,
    }
}

/// An operator on two values.
pub fn operate(op: BinOp, a: Val, b: Val) -> Result<Val, Trap>
    ensures { result ≡ operate op a b }
{
    match op {
        BinOp::Or => Ok(Val::Bool(as_bool(a) || as_bool(b))),
        BinOp::And => Ok(Val::Bool(as_bool(a) && as_bool(b))),
        BinOp::Eq => Ok(Val::Bool(is_same(a, b))),
        BinOp::Ne => Ok(Val::Bool(!is_same(a, b))),
        BinOp::Lt => Ok(Val::Bool(as_int(a) < as_int(b))),
        BinOp::Le => Ok(Val::Bool(as_int(a) <= as_int(b))),
        BinOp::Gt => Ok(Val::Bool(as_int(a) > as_int(b))),
        BinOp::Ge => Ok(Val::Bool(as_int(a) >= as_int(b))),
        BinOp::Add => sum(as_int(a), as_int(b)),
        BinOp::Sub => difference(as_int(a), as_int(b)),
        BinOp::Mul => product(as_int(a), as_int(b)),
        BinOp::Div => quotient(as_int(a), as_int(b)),
        BinOp::Rem => remainder(as_int(a), as_int(b)),
    }
}

/// Whether the left operand alone decides.
pub fn decides(op: BinOp, a: Val) -> bool
    ensures { result ≡ decides op a }
{
    match op {
        BinOp::Or => as_bool(a),
        BinOp::And => !as_bool(a),
        BinOp::Eq
        | BinOp::Ne
        | BinOp::Lt
        | BinOp::Le
        | BinOp::Gt
        | BinOp::Ge
        | BinOp::Add
        | BinOp::Sub
        | BinOp::Mul
        | BinOp::Div
        | BinOp::Rem => false,
    }
}
