//! A program that is cut off anywhere before its last brace (docs/architecture.md, "Tests").

use crate::calls::call;
use rg_io::{MemFiles, StdFiles, take_all};
use std::alloc::Global;
use std::rt::Files;

/// The number of the status of a source that is refused.
const REFUSED: u8 = 1;

/// The most bytes of a file.
const MOST: usize = 1_048_576;

/// Whether `run` refuses a source for its syntax; None where no memory was found.
fn is_refused(alloc: Global, source: &[u8]) -> Option<bool> {
    let mut files = MemFiles::new(alloc);
    files.add("a", source).ok()?;
    let called = call(alloc, &["run", "a"], &mut files, &[])?;
    let notes = called.streams.notes.taken();
    Some(called.status == REFUSED && notes.starts_with(b"E10 syntax at line "))
}

/// Whether every_second.rg is refused for its syntax wherever it is cut off before its last brace;
/// None where it can't be read, or no memory was found.
pub fn cut_anywhere(rt: &(impl Files + AllocGlobal)) -> Option<bool> {
    let whole = take_all(rt.alloc(), &mut StdFiles::new(rt), "every_second.rg", MOST).ok()?;
    let bytes = whole.bytes();
    for end in 0..bytes.len() {
        let (front, behind) = bytes.split_at(end);
        if behind.contains(&b'}') && !is_refused(rt.alloc(), front)? {
            return Some(false);
        }
    }
    Some(true)
}
