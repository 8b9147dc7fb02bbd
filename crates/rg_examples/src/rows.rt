//! The table of rows: calls on a file, `a`, maybe with a second one, `p`, and a third one, `i`,
//! with what each writes. `""` is an empty word (docs/architecture.md, "Tests").

use crate::calls::{Streams, call_on, streams_of};
use crate::cells::expanded;
use rg_io::MemFiles;
use rg_run::Machine;
use std::alloc::Global;

/// The number of the status of a source that could not be read.
const SOURCE_FAULT: u8 = 5;

/// A row: `words | input | source | output | notes | status | failing`. The last cell may be left
/// out. It has the calls of the files, the input, the output and the notes that fail (0: none), the
/// steps that the machine has made then (`-`: any), and maybe the most bytes that one call of the
/// output takes, and of the input gives (0: all that it can).
#[derive(Drop)]
struct Row<'a> {
    words: &'a str,
    input: &'a str,
    source: &'a str,
    output: &'a str,
    notes: &'a str,
    status: &'a str,
    failing: &'a str,
}

/// Whether a row gives what it says.
pub enum Verdict {
    /// an empty line, or a comment, which begins with `-- `
    NoRow,
    AsExpected,
    /// something else, or no row at all
    Other,
    /// no memory was found, or what the row speaks of isn't there
    NotTried,
}

/// The cells of a row.
fn cells(line: &str) -> Option<Row<'_>> {
    let (words, rest) = line.split_once('|')?;
    let (input, rest) = rest.split_once('|')?;
    let (source, rest) = rest.split_once('|')?;
    let (output, rest) = rest.split_once('|')?;
    let (notes, rest) = rest.split_once('|')?;
    let (status, failing) = rest.split_once('|').unwrap_or((rest, ""));
    Some(Row {
        words,
        input: input.trim(),
        source: source.trim(),
        output: output.trim(),
        notes: notes.trim(),
        status: status.trim(),
        failing: failing.trim(),
    })
}

/// The words of a row; None where no memory was found.
fn words_of<'a>(alloc: Global, text: &'a str) -> Option<Vec<&'a str>> {
    let mut words = Vec::new(alloc);
    for word in text.split_whitespace() {
        words.push(if word == "\"\"" { "" } else { word }).ok()?;
    }
    Some(words)
}

/// A number of a cell; 0 where none stands at that place.
fn number_at(cell: &str, place: usize) -> u64 {
    match cell.split_whitespace().nth(place) {
        Some(word) => word.parse().unwrap_or(0),
        None => 0,
    }
}

/// What a row's call is handed.
#[derive(Drop)]
struct Handed {
    files: MemFiles,
    streams: Streams,
}

/// The files of a cell, the later ones behind ` @ `; None where no memory was found.
fn files_of(alloc: Global, cell: &str) -> Option<MemFiles> {
    let mut files = MemFiles::new(alloc);
    let mut rest = Some(cell);
    for name in ["a", "p", "i"] {
        let Some(behind) = rest else {
            break;
        };
        let (text, later) = match behind.split_once(" @ ") {
            None => (behind, None),
            Some((text, later)) => (text, Some(later)),
        };
        files.add(name, &expanded(alloc, text)?).ok()?;
        rest = later;
    }
    Some(files)
}

/// The files and the streams of a row; None where no memory was found.
fn ample(alloc: Global, row: &Row<'_>) -> Option<Handed> {
    let files = files_of(alloc, row.source)?;
    let streams = streams_of(alloc, &expanded(alloc, row.input)?)?;
    Some(Handed { files, streams })
}

/// Sets the largest pieces of the output and the input.
fn set_pieces(streams: &mut Streams, failing: &str) {
    let taken = number_at(failing, 5);
    if taken != 0 {
        streams.out.piece(taken as usize);
    }
    let given = number_at(failing, 6);
    if given != 0 {
        streams.input.piece(given as usize);
    }
}

/// Names the calls that fail; None where no memory was found.
fn let_fail(handed: &mut Handed, failing: &str) -> Option<()> {
    handed.files.fail_at(number_at(failing, 0)).ok()?;
    handed.streams.input.fail_at(number_at(failing, 1)).ok()?;
    handed.streams.out.fail_at(number_at(failing, 2)).ok()?;
    handed.streams.notes.fail_at(number_at(failing, 3)).ok()
}

/// Whether a call has written what a row says; None where no memory was found.
fn is_told(alloc: Global, row: &Row<'_>, streams: &Streams) -> Option<bool> {
    let notes = expanded(alloc, row.notes)?;
    let output = expanded(alloc, row.output)?;
    Some(streams.notes.taken() == notes.as_slice() && streams.out.taken() == output.as_slice())
}

/// Whether the machine has made the steps that a cell of failing calls says, and none, nor begun,
/// where the source could not be read.
fn is_left_so(machine: &Machine, failing: &str, status: u8) -> bool {
    if status == SOURCE_FAULT && !machine.is_fresh() {
        return false;
    }
    match failing.split_whitespace().nth(4) {
        Some("-") | None => true,
        Some(word) => word.parse() == Ok(machine.numbers().steps),
    }
}

/// Whether the call of a row gives what it says; None where no memory was found.
fn gives(alloc: Global, row: &Row<'_>) -> Option<bool> {
    let words = words_of(alloc, row.words)?;
    let mut handed = ample(alloc, row)?;
    if !row.failing.is_empty() {
        set_pieces(&mut handed.streams, row.failing);
        let_fail(&mut handed, row.failing)?;
    }
    let mut machine = Machine::new(alloc);
    let status = call_on(
        alloc,
        &words,
        &mut handed.files,
        &mut handed.streams,
        &mut machine,
    );
    if row.status.parse() != Ok(status) || !is_left_so(&machine, row.failing, status) {
        return Some(false);
    }
    is_told(alloc, row, &handed.streams)
}

/// What is to be said of a line of the table.
pub fn judge(alloc: Global, line: &str) -> Verdict {
    if line.is_empty() || line.starts_with("-- ") {
        return Verdict::NoRow;
    }
    let Some(row) = cells(line) else {
        return Verdict::Other;
    };
    match gives(alloc, &row) {
        Some(true) => Verdict::AsExpected,
        Some(false) => Verdict::Other,
        None => Verdict::NotTried,
    }
}
