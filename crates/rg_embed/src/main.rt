//! A program of one's own that runs a program of the language (docs/embedding.md, "The top call"):
//! its text stands here, its output goes to a sink that counts lines, its notes are taken into
//! memory, and its pacers are its own. Then it runs it once more, for some steps, and tells the
//! objects that are held behind them. `tools/new` makes a crate like this one.
#![tactic(auto)]

mod headroom;
mod lines;
mod shown;

use crate::headroom::Headroom;
use crate::lines::Lines;
use crate::shown::tell_objects;
use rg_io::{MemFiles, MemSink, MemSource, StdSink};
use rg_run::Machine;
use rg_top::reggio;
use std::alloc::Global;
use std::io;

/// A list in a region of its own, and then many objects, of which one is kept.
const SOURCE: &str = "\
class Node { value: int; next: mut Node; }
class List { head: mut Node; nodes: int; }
main trace {
  let list: iso List = new iso List in count;
  enter list as l {
    let i: int = 1;
    while i <= 3 {
      let n: mut Node = new Node;
      n.value = i * i; n.next = l.head; l.head = n; l.nodes = i;
      i = i + 1;
    }
  }
  let last: mut Node = nil;
  let k: int = 0;
  while k < 40 {
    last = new Node;
    last.value = k;
    k = k + 1;
  }
  print last.value;
}
";

/// The most bytes of notes.
const MOST: usize = 10_000;

/// A file in memory, and a sink in memory with room for notes; None where no memory was found.
fn in_memory(alloc: Global) -> Option<(MemFiles, MemSink)> {
    let mut files = MemFiles::new(alloc);
    files.add("a", SOURCE.as_bytes()).ok()?;
    let mut notes = MemSink::new(alloc);
    notes.room(MOST).ok()?;
    Some((files, notes))
}

/// Runs the program to its end, with a report, and tells what it noted and what the pacers tell.
fn tell_run(rt: &HostRuntime) -> io::Result<()> {
    let alloc = rt.alloc();
    let Some((mut files, mut notes)) = in_memory(alloc) else {
        return println!(rt; "out of memory");
    };
    let mut out = Lines::new(rt.stdout());
    let mut count = Headroom::new();
    let mut trace = Headroom::new();
    let status = reggio(
        alloc,
        &["run", "a", "--report"],
        &mut files,
        &mut MemSource::new(alloc),
        &mut out,
        &mut notes,
        &mut count,
        &mut trace,
        &mut Machine::new(alloc),
    );
    let (number, lines) = (status.number(), out.lines());
    println!(rt; "status {number}, lines {lines}")?;
    if let Ok(text) = str::from_utf8(notes.taken()) {
        print!(rt; "{text}")?;
    }
    let (asks, yeses) = (count.tally().asks(), count.tally().yeses());
    println!(rt; "count: asked {asks}, yes {yeses}")?;
    let (asks, yeses) = (trace.tally().asks(), trace.tally().yeses());
    println!(rt; "trace: asked {asks}, yes {yeses}")
}

/// Runs the program for so many steps, and tells the objects that are held then.
fn tell_steps(rt: &HostRuntime) -> io::Result<()> {
    let alloc = rt.alloc();
    let Some((mut files, mut notes)) = in_memory(alloc) else {
        return println!(rt; "out of memory");
    };
    let mut machine = Machine::new(alloc);
    let _ = reggio(
        alloc,
        &["run", "a", "--steps", "28"],
        &mut files,
        &mut MemSource::new(alloc),
        &mut StdSink::new(rt.stdout()),
        &mut notes,
        &mut Headroom::new(),
        &mut Headroom::new(),
        &mut machine,
    );
    if let Ok(text) = str::from_utf8(notes.taken()) {
        print!(rt; "{text}")?;
    }
    tell_objects(rt, &machine)
}

fn main(rt: HostRuntime) -> io::Result<()> {
    tell_run(&rt)?;
    tell_steps(&rt)
}
