//! Instructions on the slots of the topmost frame and on fields (docs/architecture.md, "The
//! machine").

ghost use Rattle.std.specs.Prelude.{◌<◌, ◌-◌, ◌^◌};
ghost use Rattle.rg_machine.specs.Acts.{Does, DoesAt};
ghost use Rattle.rg_machine.specs.Core.{Given, Has};
ghost use Rattle.rg_machine.specs.Cores.{core_of};
ghost use Rattle.rg_code.specs.declared.op.Op.TheVariants as i;

use crate::machine::Machine;
use crate::next::Next;
use rg_base::Word;
use rg_code::CodeList;

/// `load s`
#[inline]
pub(crate) fn load(p: &mut Machine, s: u32) -> Next
    ensures { Does (i.Load s) p.old p.new result }
{
    let w = p.slot(s);
    match p.push(w) {
        Ok(()) => Next::On,
        Err(_) => Next::Memory,
    }
}

/// `clear s`
pub(crate) fn clear(p: &mut Machine, s: u32) -> Next
    requires given { Has (i.Clear s) (core_of p.old) }
    ensures { Does (i.Clear s) p.old p.new result }
{
    p.set_slot(s, Word::Nil);
    Next::On
}

/// `store s`
#[inline]
pub(crate) fn store(p: &mut Machine, s: u32) -> Next
    requires given { Has (i.Store s) (core_of p.old) }
    ensures { Does (i.Store s) p.old p.new result }
{
    let Some(w) = p.pop() else {
        return Next::Lost;
    };
    p.set_slot(s, w);
    Next::On
}

/// `field k`
#[inline]
pub(crate) fn field(p: &mut Machine, index: u32) -> Next
    requires given { Has (i.Field index) (core_of p.old) }
    ensures { Does (i.Field index) p.old p.new result }
{
    let Some(r) = p.top() else {
        return Next::Lost;
    };
    match p.field(r, index) {
        Ok(w) => {
            p.set_top(w);
            Next::On
        }
        Err(kind) => Next::Trap(kind),
    }
}

/// `check`
pub(crate) fn check(p: &mut Machine) -> Next
    ensures { Does i.Check p.old p.new result }
{
    let Some(r) = p.top() else {
        return Next::Lost;
    };
    match p.check(r) {
        Ok(()) => Next::On,
        Err(kind) => Next::Trap(kind),
    }
}

/// `put k`
#[inline]
pub(crate) fn put(p: &mut Machine, index: u32) -> Next
    requires given { Has (i.Put index) (core_of p.old) }
    ensures { Does (i.Put index) p.old p.new result }
{
    let Some(w) = p.pop() else {
        return Next::Lost;
    };
    let Some(r) = p.pop() else {
        return Next::Lost;
    };
    p.put(r, index, w);
    Next::On
}

/// `print`
pub(crate) fn print(p: &mut Machine) -> Next
    requires given { Has i.Print (core_of p.old) }
    ensures { Does i.Print p.old p.new result }
{
    let Some(w) = p.pop() else {
        return Next::Lost;
    };
    p.print(w);
    Next::On
}

/// `call m`
pub(crate) fn call(p: &mut Machine, code: &CodeList, at: usize, method: u32) -> Next
    requires near { at < 2 ^ 64 - 1 }
    requires given { Given code.now (i.Call method) (core_of p.old) }
    ensures { DoesAt code.now at (i.Call method) p.old p.new result }
{
    if (method as usize) >= code.method_count() {
        return Next::Lost;
    }
    let entry = code.entry(method);
    match p.call(entry.given, entry.slots, at + 1) {
        Ok(()) => Next::Stop(entry.at),
        Err(_) => Next::Memory,
    }
}
