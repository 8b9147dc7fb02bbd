//! The machine that never frees, with ample memory: how a run ends, and what it shows of an object
//! (docs/language.md, "Steps").

ghost use Rattle.std.specs.Prelude.{◌≡◌};
ghost use Rattle.rg_plain.specs.Machine.{fresh};

use crate::paths::accepted;
use rg_base::{Ended, Label, Memory, Seen, Val};
use rg_check::Accepted;
use rg_input::Numbers;
use rg_io::{MemSink, MemSource};
use rg_plain::PlainMachine;
use std::alloc::Global;
use std::test::*;

const MAKING: &[u8] = b"class N { v: int; }\n\
    main trace { let n: mut N = new N; n.v = 3; print n.v; }\n";

// Whether an object is one of the first class in region 0 with the field 3.
fn is_made(object: &Seen) -> bool {
    let has_field = object.fields.len() == 1 && object.fields.get(0) == Some(Val::Int(3));
    object.class == 0 && object.label == Label::Region(0) && has_field
}

// Whether only the first object was made.
fn has_one(alloc: Global, machine: &PlainMachine) -> Result<bool, Memory> {
    let Some(first) = machine.object(alloc, 0)? else {
        return Ok(false);
    };
    let second = machine.object(alloc, 1)?;
    Ok(is_made(&first) && second.is_none())
}

// Whether the four steps of `MAKING` print its number and leave its object.
fn runs(alloc: Global, accepted: &Accepted, machine: &mut PlainMachine) -> Result<bool, Memory>
    requires { machine.old ≡ fresh }
{
    let program = accepted.program();
    machine.begin(alloc, program)?;
    let mut out = MemSink::new(alloc);
    out.room(8)?;
    let mut numbers = Numbers::new();
    let mut source = MemSource::new(alloc);
    let ended = machine.run(alloc, program, 4, &mut numbers, &mut source, &mut out);
    let has_made = has_one(alloc, machine)?;
    Ok(ended == Ended::Done && out.taken() == b"3\n".as_slice() && has_made)
}

#[test]
fn a_program_is_run_on_it(rt: HostRuntime) -> Result<(), Fail> {
    let making = accepted(rt.alloc(), MAKING)?;
    let mut machine = PlainMachine::new(rt.alloc());
    assert!(rt; matches!(runs(rt.alloc(), &making, &mut machine), Ok(true)));
    Ok(())
}
