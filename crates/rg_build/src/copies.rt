//! A copy of a code (docs/architecture.md, "Modules").

ghost use Rattle.std.specs.Prelude.{◌≡◌, ◌++◌, ◌<◌, ◌^◌, All, IfOk, OnOk, length};
ghost use Rattle.rg_spell.specs.Spelling.{FitsOp};
ghost use Rattle.rg_build.specs.Inner.Near.{IsNear};

use crate::operands::fit;
use rg_base::Memory;
use rg_code::CodeList;
use std::alloc::Global;

/// The same code once more, which has so many classes. More instructions or methods than have a
/// count of 32 bits count as want of memory.
pub fn copy(alloc: Global, code: &CodeList, classes: u32) -> Result<CodeList, Memory>
    requires classes { classes ≡ length code.now.openings }
    requires near { All (IsNear (length code.now.ops)) code.now.ops }
    ensures is { IfOk result (λ copy. copy ≡ code.now) }
    ensures count { IfOk result (λ copy. length code.now.ops < 2 ^ 32) }
    ensures methods { IfOk result (λ copy. length code.now.entries < 2 ^ 32) }
    ensures fits { IfOk result (λ copy. All FitsOp code.now.ops) }
{
    number(code.len())?;
    let methods = number(code.method_count())?;
    let mut copy = CodeList::new(alloc);
    copy_ops(code, &mut copy)?;
    copy_openings(code, classes, &mut copy)?;
    copy_entries(code, methods, &mut copy)?;
    copy.set_main_slots(code.main_slots());
    Ok(copy)
}

// A number of 32 bits.
fn number(n: usize) -> Result<u32, Memory>
    ensures { IfOk result (λ number. number ≡ n) }
{
    if n > u32::MAX as usize {
        return Err(Memory);
    }
    Ok(n as u32)
}

// Appends the instructions, each of which has a spelling.
fn copy_ops(code: &CodeList, copy: &mut CodeList) -> Result<(), Memory>
    requires count { length code.now.ops < 2 ^ 32 }
    requires near { All (IsNear (length code.now.ops)) code.now.ops }
    ensures is { OnOk result (copy.new
        ≡ record copy.old { ops = copy.old.ops ++ code.now.ops }) }
    ensures fits { OnOk result (All FitsOp code.now.ops) }
{
    let count = code.len();
    for at in 0..count {
        let op = code.get(at);
        fit(op, count);
        copy.push(op)?;
    }
    Ok(())
}

// Appends the openings of classes.
fn copy_openings(code: &CodeList, classes: u32, copy: &mut CodeList) -> Result<(), Memory>
    requires { classes ≡ length code.now.openings }
    ensures { OnOk result (copy.new
        ≡ record copy.old { openings = copy.old.openings ++ code.now.openings }) }
{
    for class in 0..classes {
        copy.add_class(code.opening(class))?;
    }
    Ok(())
}

// Appends the entries of methods.
fn copy_entries(code: &CodeList, methods: u32, copy: &mut CodeList) -> Result<(), Memory>
    requires { methods ≡ length code.now.entries }
    ensures { OnOk result (copy.new
        ≡ record copy.old { entries = copy.old.entries ++ code.now.entries }) }
{
    for method in 0..methods {
        copy.add_method(code.entry(method))?;
    }
    Ok(())
}
