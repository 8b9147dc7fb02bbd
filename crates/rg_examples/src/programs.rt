//! The programs of examples/, each with a file of what it writes (docs/architecture.md, "Tests").

use crate::calls::call;
use rg_io::{MemFiles, StdFiles, take_all};
use std::rt::Files;

/// The programs, each with the file of its input, which may have none, and that of its output.
pub const PROGRAMS: [(&str, Option<&str>, &str); 30] = [
    ("seven.rg", None, "seven.out"),
    ("first.rg", None, "first.out"),
    ("sums.rg", None, "sums.out"),
    ("list.rg", None, "list.out"),
    ("tree.rg", None, "tree.out"),
    ("adder.rg", Some("adder.in"), "adder.out"),
    ("region.rg", None, "region.out"),
    ("nested.rg", None, "nested.out"),
    ("frozen.rg", None, "frozen.out"),
    ("merged.rg", None, "merged.out"),
    ("cursor.rg", None, "cursor.out"),
    ("counts.rg", None, "counts.out"),
    ("queue.rg", None, "queue.out"),
    ("bank.rg", Some("bank.in"), "bank.out"),
    ("stack.rg", Some("stack.in"), "stack.out"),
    ("heap.rg", Some("heap.in"), "heap.out"),
    ("handover.rg", None, "handover.out"),
    ("cache.rg", None, "cache.out"),
    ("graph.rg", None, "graph.out"),
    ("two_managers.rg", None, "two_managers.out"),
    ("requests.rg", Some("requests.in"), "requests.out"),
    ("doubly.rg", None, "doubly.out"),
    ("free_list.rg", None, "free_list.out"),
    ("symbols.rg", None, "symbols.out"),
    ("undo.rg", None, "undo.out"),
    ("shelf.rg", None, "shelf.out"),
    ("in_step.rg", None, "in_step.out"),
    ("placed.rg", None, "placed.out"),
    ("every_second.rg", None, "every_second.out"),
    ("every_form.rg", Some("every_form.in"), "every_form.out"),
];

/// The programs whose report is compared, each with the number of `--every`, the file of its input,
/// which may have none, and that of the report.
pub const REPORTED: [(&str, &str, Option<&str>, &str); 13] = [
    ("handover.rg", "1000", None, "handover.report"),
    ("cache.rg", "1000", None, "cache.report"),
    ("graph.rg", "1000", None, "graph.report"),
    ("two_managers.rg", "1000", None, "two_managers.report"),
    (
        "requests.rg",
        "1000",
        Some("requests.in"),
        "requests.report",
    ),
    ("doubly.rg", "1000", None, "doubly.report"),
    ("free_list.rg", "1000", None, "free_list.report"),
    ("symbols.rg", "1000", None, "symbols.report"),
    ("undo.rg", "1000", None, "undo.report"),
    ("shelf.rg", "1000", None, "shelf.report"),
    ("in_step.rg", "1000", None, "in_step.report"),
    ("placed.rg", "1000", None, "placed.report"),
    ("placed.rg", "100", None, "placed_paced.report"),
];

/// The programs that run by a plan, each with the files of its plan, its schedule and its output.
pub const PLANNED: [(&str, &str, &str, &str); 4] = [
    (
        "accounts.rg",
        "accounts.plan",
        "accounts.in",
        "accounts.out",
    ),
    ("stages.rg", "stages.plan", "stages.in", "stages.out"),
    ("mended.rg", "mended.plan", "mended.in", "mended.out"),
    ("game.rg", "game_on.plan", "game_on.in", "game_on.out"),
];

/// A program that runs by a plan and keeps what a cown has: the files of the plan and of the
/// schedule, the cown, and the file of its image, which another plan loads.
pub const KEPT: (&str, &str, &str, &str, &str) = (
    "game.rg",
    "game.plan",
    "game.in",
    "0",
    "game.rgi",
);

/// The most bytes of a file.
const MOST: usize = 1_048_576;

/// The bytes of a file of inputs, or none; None where it can't be read.
fn input_of(rt: &(impl Files + AllocGlobal), input: Option<&str>) -> Option<Vec<u8>> {
    let mut bytes = Vec::new(rt.alloc());
    if let Some(name) = input {
        let taken = take_all(rt.alloc(), &mut StdFiles::new(rt), name, MOST).ok()?;
        bytes.extend_from_slice(taken.bytes()).ok()?;
    }
    Some(bytes)
}

/// Whether a file has these bytes.
fn has_bytes(rt: &(impl Files + AllocGlobal), name: &str, bytes: &[u8]) -> bool {
    match take_all(rt.alloc(), &mut StdFiles::new(rt), name, MOST) {
        Ok(expected) => expected.bytes() == bytes,
        Err(_) => false,
    }
}

/// Whether a call with these words and this input writes that output, and nothing to the notes;
/// None where no memory was found, or the input can't be read.
pub fn writes(
    rt: &(impl Files + AllocGlobal),
    words: &[&str],
    input: Option<&str>,
    output: &str,
) -> Option<bool> {
    let input = input_of(rt, input)?;
    let called = call(rt.alloc(), words, &mut StdFiles::new(rt), &input)?;
    let is_silent = called.streams.notes.taken().is_empty();
    Some(is_silent && has_bytes(rt, output, called.streams.out.taken()))
}

/// Whether a call with these words and this input writes that report to the notes; None as above.
pub fn reports(
    rt: &(impl Files + AllocGlobal),
    words: &[&str],
    input: Option<&str>,
    report: &str,
) -> Option<bool> {
    let input = input_of(rt, input)?;
    let called = call(rt.alloc(), words, &mut StdFiles::new(rt), &input)?;
    Some(has_bytes(rt, report, called.streams.notes.taken()))
}

/// Whether the canonical text of a program is its own canonical text; None where no memory was
/// found.
pub fn settles(rt: &(impl Files + AllocGlobal), program: &str) -> Option<bool> {
    let once = call(rt.alloc(), &["fmt", program], &mut StdFiles::new(rt), &[])?;
    let mut files = MemFiles::new(rt.alloc());
    files.add("a", once.streams.out.taken()).ok()?;
    let twice = call(rt.alloc(), &["fmt", "a"], &mut files, &[])?;
    Some(twice.status == 0 && twice.streams.out.taken() == once.streams.out.taken())
}
