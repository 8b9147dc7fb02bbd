//! What a machine shows of the objects that a run made (docs/architecture.md, "Tests").

use crate::calls::{call_on, streams_of};
use rg_base::Val;
use rg_io::MemFiles;
use rg_run::Machine;
use std::alloc::Global;

/// It makes one object, in four steps.
const SOURCE: &[u8] =
    b"class N { v: int; } main trace { let a: mut N = new N; a.v = 5; print a.v; }";

/// Whether the object of serial 0 has the one number in its first field, and no other object is
/// held; None where no memory was found.
fn has_one_object(alloc: Global, machine: &Machine) -> Option<bool> {
    if machine.shown(alloc, 1).ok()?.is_some() {
        return Some(false);
    }
    match machine.shown(alloc, 0).ok()? {
        Some(object) => Some(matches!(object.fields.get(0), Some(Val::Int(5)))),
        None => Some(false),
    }
}

/// Whether the machine shows what the run made; None where no memory was found.
pub fn shows(alloc: Global) -> Option<bool> {
    let mut files = MemFiles::new(alloc);
    files.add("a", SOURCE).ok()?;
    let mut streams = streams_of(alloc, &[])?;
    let mut machine = Machine::new(alloc);
    let status = call_on(alloc, &["run", "a"], &mut files, &mut streams, &mut machine);
    let numbers = machine.numbers();
    if status != 0 || numbers.steps != 4 || numbers.made != 1 {
        return Some(false);
    }
    has_one_object(alloc, &machine)
}
