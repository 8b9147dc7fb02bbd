//! A program that prints the same whatever its pacers say, with pacers that answer as they like
//! (docs/architecture.md, "Tests").

use crate::calls::streams_of;
use rg_io::{StdFiles, take_all};
use rg_pace::{Listed, Never, Pacer};
use rg_run::Machine;
use rg_top::reggio;
use std::alloc::Global;
use std::rt::Files;

/// How many answers a list has.
const ANSWERS: u64 = 1_000;

/// The most bytes of a file.
const MOST: usize = 1_048_576;

/// A list of answers, yes and no by turns, yes first; None where no memory was found.
fn turns(alloc: Global) -> Option<Listed> {
    let mut pacer = Listed::new(alloc);
    for k in 0..ANSWERS {
        pacer.add(k % 2 == 0).ok()?;
    }
    Some(pacer)
}

/// Whether every_second.rg ends well and prints what it should with these pacers, in so many
/// collections; None where no memory was found.
fn prints_in(
    rt: &(impl Files + AllocGlobal),
    count: &mut dyn Pacer,
    trace: &mut dyn Pacer,
    collections: u64,
) -> Option<bool> {
    let mut files = StdFiles::new(rt);
    let mut streams = streams_of(rt.alloc(), &[])?;
    let mut machine = Machine::new(rt.alloc());
    let status = reggio(
        rt.alloc(),
        &["run", "every_second.rg"],
        &mut files,
        &mut streams.input,
        &mut streams.out,
        &mut streams.notes,
        count,
        trace,
        &mut machine,
    );
    let expected = take_all(rt.alloc(), &mut files, "every_second.out", MOST).ok()?;
    let counted = machine.numbers().collections == collections;
    Some(status.number() == 0 && counted && streams.out.taken() == expected.bytes())
}

/// With a list of 1,000 answers by turns the region is collected at each yes, and by the program.
pub fn by_a_list(rt: &(impl Files + AllocGlobal)) -> Option<bool> {
    let mut trace = turns(rt.alloc())?;
    prints_in(rt, &mut Never::new(), &mut trace, 501)
}

/// Without a yes it is collected by the program alone.
pub fn never(rt: &(impl Files + AllocGlobal)) -> Option<bool> {
    prints_in(rt, &mut Never::new(), &mut Never::new(), 1)
}
