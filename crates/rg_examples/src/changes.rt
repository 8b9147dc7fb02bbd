//! The table of changes: a program of examples/ with one text in place of another, and what `check`
//! says of it (docs/architecture.md, "Tests").

use crate::calls::call;
use crate::cells::expanded;
use crate::rows::Verdict;
use rg_io::{MemFiles, StdFiles, take_all};
use std::rt::Files;

/// A change: `program | text | text in its place | notes`. Without notes the program is accepted.
#[derive(Drop)]
struct Change<'a> {
    program: &'a str,
    old: &'a str,
    new: &'a str,
    notes: &'a str,
}

/// The most bytes of a program.
const MOST: usize = 1_048_576;

/// The cells of a change.
fn cells(line: &str) -> Option<Change<'_>> {
    let (program, rest) = line.split_once('|')?;
    let (old, rest) = rest.split_once('|')?;
    let (new, notes) = rest.split_once('|')?;
    Some(Change {
        program: program.trim(),
        old: old.trim(),
        new: new.trim(),
        notes: notes.trim(),
    })
}

/// The program with its change; None where it can't be read, the text isn't in it, or no memory was
/// found.
fn changed(rt: &(impl Files + AllocGlobal), change: &Change<'_>) -> Option<Vec<u8>> {
    let source = take_all(rt.alloc(), &mut StdFiles::new(rt), change.program, MOST).ok()?;
    let old = expanded(rt.alloc(), change.old)?;
    let new = expanded(rt.alloc(), change.new)?;
    let (before, behind) = str::from_utf8(source.bytes())
        .ok()?
        .split_once(str::from_utf8(&old).ok()?)?;
    let mut bytes = Vec::new(rt.alloc());
    bytes.extend_from_slice(before.as_bytes()).ok()?;
    bytes.extend_from_slice(&new).ok()?;
    bytes.extend_from_slice(behind.as_bytes()).ok()?;
    Some(bytes)
}

/// Whether `check` refuses a changed program with these notes, or accepts it where there are none;
/// None where it wasn't tried.
fn is_judged_so(rt: &(impl Files + AllocGlobal), change: &Change<'_>) -> Option<bool> {
    let mut files = MemFiles::new(rt.alloc());
    files.add("a", &changed(rt, change)?).ok()?;
    let called = call(rt.alloc(), &["check", "a"], &mut files, &[])?;
    let notes = expanded(rt.alloc(), change.notes)?;
    let status = if notes.is_empty() { 0 } else { 1 };
    Some(called.status == status && called.streams.notes.taken() == notes.as_slice())
}

/// What is to be said of a line of the table.
pub fn judge_change(rt: &(impl Files + AllocGlobal), line: &str) -> Verdict {
    if line.is_empty() || line.starts_with("-- ") {
        return Verdict::NoRow;
    }
    let Some(change) = cells(line) else {
        return Verdict::Other;
    };
    match is_judged_so(rt, &change) {
        Some(true) => Verdict::AsExpected,
        Some(false) => Verdict::Other,
        None => Verdict::NotTried,
    }
}
