//! The objects that a machine holds, in words (docs/embedding.md, "The objects that are held").

use rg_base::{Label, Seen, Val};
use rg_run::Machine;
use std::io;

/// Tells an object: its serial, class and place, and then a line for each field.
fn tell_object(rt: &impl Print, serial: u64, seen: &Seen) -> io::Result<()> {
    let class = seen.class;
    match seen.label {
        Label::Region(n) => println!(rt; "object {serial}: class {class}, region {n}")?,
        Label::Temp(n) => println!(rt; "object {serial}: class {class}, window {n}")?,
        Label::Frozen => println!(rt; "object {serial}: class {class}, frozen")?,
    }
    for k in 0..seen.fields.len() {
        match seen.fields.get(k) {
            Some(Val::Obj(to)) => println!(rt; "  field {k}: object {to}")?,
            Some(Val::Int(n)) => println!(rt; "  field {k}: {n}")?,
            Some(Val::Bool(b)) => println!(rt; "  field {k}: {b}")?,
            Some(Val::Nil) | None => println!(rt; "  field {k}: nil")?,
        }
    }
    Ok(())
}

/// Tells each object that the machine holds, by the order in which they were made.
pub fn tell_objects(rt: &(impl Print + AllocGlobal), machine: &Machine) -> io::Result<()> {
    for serial in 0..machine.numbers().made {
        match machine.shown(rt.alloc(), serial) {
            Ok(Some(seen)) => tell_object(rt, serial, &seen)?,
            Ok(None) => {}
            Err(_) => return println!(rt; "out of memory"),
        }
    }
    Ok(())
}
