//! Instructions on the values of the stack (docs/architecture.md, "The machine").

ghost use Rattle.std.specs.Prelude.{◌≡◌, ◌∷◌, ℕ};
ghost use Rattle.rg_stack.specs.Machine.{value_of_word};
ghost use Rattle.rg_stack.specs.Effects.{on_two};
ghost use Rattle.rg_code.specs.declared.op.Op.TheVariants as i;
ghost use Rattle.rg_machine.specs.Acts.{Computing, Does};

use crate::machine::Machine;
use crate::next::Next;
use crate::scalars::{computed, leads_nowhere, truth, word_of};
use rg_base::Word;
use rg_store::{negative, operate};
use rg_tree::BinOp;

/// `bool b` and `nil`
#[inline]
pub(crate) fn constant(p: &mut Machine, w: Word) -> Next
    requires { (s : ℕ) → w ≡ Word.Slot s → ⊥ }
    ensures { Computing (λ go stack x. go 0 (value_of_word w ∷ stack) x) p.old p.new result }
{
    match p.push(w) {
        Ok(()) => Next::On,
        Err(_) => Next::Memory,
    }
}

/// An operator on the two topmost values, whatever they are.
#[inline(never)]
fn operate_values(p: &mut Machine, op: BinOp) -> Next
    ensures { Computing (on_two op) p.old p.new result }
{
    let Some(y) = p.pop() else {
        return Next::Lost;
    };
    let Some(x) = p.pop() else {
        return Next::Lost;
    };
    match operate(op, p.value(x), p.value(y)) {
        Ok(v) => match p.push(word_of(v)) {
            Ok(()) => Next::On,
            Err(_) => Next::Memory,
        },
        Err(kind) => Next::Trap(kind),
    }
}

/// An operator on the two topmost values.
pub(crate) fn binary(p: &mut Machine, op: BinOp) -> Next
    ensures { Computing (on_two op) p.old p.new result }
{
    let Some((x, y)) = p.two_numbers() else {
        return operate_values(p, op);
    };
    let Some(w) = computed(op, x, y) else {
        return operate_values(p, op);
    };
    let Some(_) = p.pop() else {
        return Next::Lost;
    };
    p.set_top(w);
    Next::On
}

/// `neg`
pub(crate) fn negate(p: &mut Machine) -> Next
    ensures { Does i.Neg p.old p.new result }
{
    let Some(w) = p.top() else {
        return Next::Lost;
    };
    match negative(p.value(w)) {
        Ok(v) => {
            p.set_top(word_of(v));
            Next::On
        }
        Err(kind) => Next::Trap(kind),
    }
}

/// `not`
pub(crate) fn invert(p: &mut Machine) -> Next
    ensures { Does i.Not p.old p.new result }
{
    let Some(w) = p.top() else {
        return Next::Lost;
    };
    p.set_top(Word::Bool(!truth(p, w)));
    Next::On
}

/// `isnil`
pub(crate) fn test_nil(p: &mut Machine) -> Next
    ensures { Does i.IsNil p.old p.new result }
{
    let Some(w) = p.top() else {
        return Next::Lost;
    };
    p.set_top(Word::Bool(leads_nowhere(p, w)));
    Next::On
}
