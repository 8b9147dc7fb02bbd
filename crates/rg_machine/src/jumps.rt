//! Jumps within a step (docs/architecture.md, "The machine").

ghost use Rattle.std.specs.Prelude.{◌-◌};
ghost use Rattle.rg_code.specs.declared.op.Op.TheVariants as i;
ghost use Rattle.rg_machine.specs.Acts.{Does};
ghost use Rattle.rg_machine.specs.Cores.{core_of};
ghost use Rattle.rg_machine.specs.Core.{Has};

use crate::machine::Machine;
use crate::next::Next;
use crate::scalars::truth;

/// `jfalse t`
#[inline]
pub(crate) fn jump_false(p: &mut Machine, to: usize) -> Next
    requires given { Has (i.JumpFalse to) (core_of p.old) }
    ensures { Does (i.JumpFalse to) p.old p.new result }
{
    let Some(w) = p.pop() else {
        return Next::Lost;
    };
    if truth(p, w) { Next::On } else { Next::To(to) }
}

/// `and t`
pub(crate) fn and(p: &mut Machine, to: usize) -> Next
    ensures { Does (i.And to) p.old p.new result }
{
    let Some(w) = p.top() else {
        return Next::Lost;
    };
    if truth(p, w) {
        let _ = p.pop();
        Next::On
    } else {
        Next::To(to)
    }
}

/// `or t`
pub(crate) fn or(p: &mut Machine, to: usize) -> Next
    ensures { Does (i.Or to) p.old p.new result }
{
    let Some(w) = p.top() else {
        return Next::Lost;
    };
    if truth(p, w) {
        Next::To(to)
    } else {
        let _ = p.pop();
        Next::On
    }
}
