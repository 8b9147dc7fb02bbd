//! What of a module's code follows from the rest: how classes open, where methods begin, and the
//! numbers of slots (docs/architecture.md, "Modules").

ghost use Rattle.std.specs.Prelude.{◌≡◌, suc, ◌+◌, ◌≤◌, ◌++◌, map, length, drop, OnOk, IfOk};
ghost use Rattle.rg_code.specs.Code.{empty, with_opening, with_entry};
ghost use Rattle.rg_code.specs.Lowering as lowering;
ghost use Rattle.rg_module.specs.Follows as follows;
ghost use Rattle.rg_module.specs.Follows.{opening, body, entries};

use rg_base::{Memory, Ty, Word};
use rg_code::{CodeList, Entry, Op, above};
use rg_spell::{Head, Shape};
use std::alloc::Global;

// The word with which a field of a type starts.
fn start(ty: Ty) -> Word
    ensures { result ≡ follows.start ty }
{
    match ty {
        Ty::Int => Word::Int(0),
        Ty::Bool => Word::Bool(false),
        Ty::Ref { .. } => Word::Nil,
    }
}

// The words with which fields of these types start.
fn starts(alloc: Global, types: &[Ty]) -> Result<Vec<Word>, Memory>
    ensures { IfOk result (λ words. words.items ≡ map follows.start types.now) }
{
    let mut words = Vec::new(alloc);
    for ty in types {
        let Ok(()) = words.push(start(*ty)) else {
            return Err(Memory);
        };
    }
    Ok(words)
}

// Appends the opening of a class.
fn add_opening(alloc: Global, code: &mut CodeList, shape: &Shape) -> Result<(), Memory>
    ensures { OnOk result (code.new ≡ with_opening code.old (opening shape.now)) }
{
    if let Some(element) = shape.element {
        code.add_class(&[start(element)])?;
        return Ok(());
    }
    let words = starts(alloc, shape.fields.items())?;
    code.add_class(words.as_slice())?;
    Ok(())
}

// Appends the openings of classes, in order.
fn add_openings(alloc: Global, code: &mut CodeList, shapes: &[Shape]) -> Result<(), Memory>
    ensures { OnOk result (code.new
        ≡ record code.old { openings = code.old.openings ++ map opening shapes.now }) }
{
    for shape in shapes {
        add_opening(alloc, code, shape)?;
    }
    Ok(())
}

// Whether a body ends with an instruction.
fn ends_body(op: Op) -> bool
    ensures { result ≡ follows.ends_body op }
{
    if let Op::Ret = op {
        return true;
    }
    if let Op::RetVoid = op {
        return true;
    }
    if let Op::Halt = op {
        return true;
    }
    false
}

// The end of the body that begins at an address, and its number of slots.
fn body_at(code: &CodeList, from: usize, given: u64) -> (usize, u64)
    requires { from ≤ length code.now.ops }
    ensures end { result.0 ≡ from + length (body (drop from code.now.ops)) }
    ensures slots { result.1 ≡ lowering.slots_of given (body (drop from code.now.ops)) }
{
    let mut slots = given;
    let mut at = from;
    while at < code.len() {
        let op = code.get(at);
        slots = slots.max(above(op));
        at += 1;
        if ends_body(op) {
            return (at, slots);
        }
    }
    (at, slots)
}

// A number of slots; one that has no number of its type counts as want of memory.
fn number(n: u64) -> Result<u32, Memory>
    ensures { IfOk result (λ number. number ≡ n) }
{
    if n > u32::MAX as u64 {
        return Err(Memory);
    }
    Ok(n as u32)
}

// The number of parameters of a method, `self` counted.
fn given_of(head: &Head) -> u64
    ensures { result ≡ suc (length head.now.params) }
{
    head.params.items().len() as u64 + 1
}

// A method at an address, with so many parameters and slots.
fn entry_of(at: usize, given: u64, slots: u64) -> Result<Entry, Memory>
    ensures { IfOk result (λ e. e ≡ record { at = at; given = given; slots = slots }) }
{
    let given = number(given)?;
    let slots = number(slots)?;
    Ok(Entry { at, given, slots })
}

// Appends the entry of a method whose body begins at an address, and answers where that ends.
fn add_entry(code: &mut CodeList, at: usize, head: &Head) -> Result<usize, Memory>
    requires { at ≤ length code.old.ops }
    ensures ok { OnOk result (code.new
        ≡ with_entry code.old (follows.entry at head.now (drop at code.old.ops))) }
    ensures end { IfOk result (λ end. end ≡ at + length (body (drop at code.old.ops))) }
{
    let given = given_of(head);
    let (end, slots) = body_at(code, at, given);
    let entry = entry_of(at, given, slots)?;
    code.add_method(entry)?;
    Ok(end)
}

// Appends the entries of methods, whose bodies begin at an address.
fn add_entries(code: &mut CodeList, from: usize, heads: &[Head]) -> Result<(), Memory>
    requires { from ≤ length code.old.ops }
    ensures { OnOk result (let added = entries from heads.now (drop from code.old.ops) in
        code.new ≡ record code.old { entries = code.old.entries ++ added }) }
{
    let mut at = from;
    for head in heads {
        at = add_entry(code, at, head)?;
    }
    Ok(())
}

/// Adds to instructions what of their code follows from classes and methods.
pub(crate) fn complete(
    alloc: Global,
    code: &mut CodeList,
    shapes: &[Shape],
    heads: &[Head],
) -> Result<(), Memory>
    requires { code.old ≡ record empty { ops = code.old.ops } }
    ensures { OnOk result (code.new ≡ follows.code_for shapes.now heads.now code.old.ops) }
{
    let (end, slots) = body_at(code, 0, 0);
    let slots = number(slots)?;
    add_openings(alloc, code, shapes)?;
    code.set_main_slots(slots);
    add_entries(code, end, heads)?;
    Ok(())
}
