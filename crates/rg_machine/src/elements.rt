//! Instructions on the elements of arrays (docs/architecture.md, "The machine").

ghost use Rattle.rg_code.specs.declared.op.Op.TheVariants as i;
ghost use Rattle.rg_machine.specs.Acts.{Does};
ghost use Rattle.rg_machine.specs.Core.{Has};
ghost use Rattle.rg_machine.specs.Cores.{core_of};

use crate::machine::Machine;
use crate::next::Next;
use rg_base::Word;

/// `size`
pub(crate) fn size(p: &mut Machine) -> Next
    ensures { Does i.Size p.old p.new result }
{
    let Some(r) = p.top() else {
        return Next::Lost;
    };
    match p.size(r) {
        Ok(many) => {
            p.set_top(Word::Int(i64::from(many)));
            Next::On
        }
        Err(kind) => Next::Trap(kind),
    }
}

/// `bound`
#[inline]
pub(crate) fn bound(p: &mut Machine) -> Next
    ensures { Does i.Bound p.old p.new result }
{
    let Some((r, index)) = p.two_words() else {
        return Next::Lost;
    };
    match p.element_place(r, index) {
        Ok(_) => Next::On,
        Err(kind) => Next::Trap(kind),
    }
}

/// `elem`
#[inline]
pub(crate) fn element(p: &mut Machine) -> Next
    requires given { Has i.Element (core_of p.old) }
    ensures { Does i.Element p.old p.new result }
{
    let Some(index) = p.pop() else {
        return Next::Lost;
    };
    let Some(r) = p.top() else {
        return Next::Lost;
    };
    let w = p.element(r, index);
    p.set_top(w);
    Next::On
}

/// `putelem`
#[inline]
pub(crate) fn put_element(p: &mut Machine) -> Next
    requires given { Has i.PutElement (core_of p.old) }
    ensures { Does i.PutElement p.old p.new result }
{
    let Some(w) = p.pop() else {
        return Next::Lost;
    };
    let Some(index) = p.pop() else {
        return Next::Lost;
    };
    let Some(r) = p.pop() else {
        return Next::Lost;
    };
    p.put_element(r, index, w);
    Next::On
}
