//! Calls of the top call with streams in memory (docs/architecture.md, "Tests").

ghost use Rattle.std.specs.Prelude.{◌≡◌, false};
ghost use Rattle.rg_run.specs.Machine.{IsFresh};

use rg_io::{Files, MemSink, MemSource};
use rg_pace::EveryN;
use rg_run::Machine;
use rg_top::reggio;
use std::alloc::Global;

/// The most bytes that a call writes.
const MOST: usize = 1_048_576;

/// What a call is handed beside its files.
#[derive(Drop)]
pub struct Streams {
    pub input: MemSource,
    pub out: MemSink,
    pub notes: MemSink,
}

/// What a call has written, and the number of its status.
#[derive(Drop)]
pub struct Called {
    pub streams: Streams,
    pub status: u8,
}

/// A sink with room for all that a call writes; None where no memory was found.
fn ample_sink(alloc: Global) -> Option<MemSink> {
    let mut sink = MemSink::new(alloc);
    match sink.room(MOST) {
        Ok(()) => Some(sink),
        Err(_) => None,
    }
}

/// An input, and sinks with room; None where no memory was found.
pub fn streams_of(alloc: Global, bytes: &[u8]) -> Option<Streams> {
    let mut input = MemSource::new(alloc);
    input.add(bytes).ok()?;
    let out = ample_sink(alloc)?;
    let notes = ample_sink(alloc)?;
    Some(Streams { input, out, notes })
}

/// Calls the program with these words and two `EveryN`, and answers the number of its status.
pub fn call_on<F: Files>(
    alloc: Global,
    words: &[&str],
    files: &mut F,
    streams: &mut Streams,
    machine: &mut Machine,
) -> u8
    requires fresh { IsFresh machine.old }
    requires stays { machine.old.stepper.slides ≡ false }
{
    let status = reggio(
        alloc,
        words,
        files,
        &mut streams.input,
        &mut streams.out,
        &mut streams.notes,
        &mut EveryN::new(),
        &mut EveryN::new(),
        machine,
    );
    status.number()
}

/// Calls the program with these words, this input and a machine of its own; None where no memory
/// was found.
pub fn call<F: Files>(
    alloc: Global,
    words: &[&str],
    files: &mut F,
    input: &[u8],
) -> Option<Called> {
    let mut streams = streams_of(alloc, input)?;
    let status = call_on(alloc, words, files, &mut streams, &mut Machine::new(alloc));
    Some(Called { streams, status })
}
