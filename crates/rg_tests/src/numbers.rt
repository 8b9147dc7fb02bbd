//! Inputs and their numbers, whatever the pieces of the source, and whichever call of it fails
//! (docs/language.md, "Input numbers").

ghost use Rattle.std.specs.Prelude.{◌<◌, ◌≤◌, Some};
ghost use Rattle.rg_input.specs.Numbers.{Follows};

use rg_base::Memory;
use rg_input::{InputFault, NumberRefusal, Numbers};
use rg_io::MemSource;
use std::alloc::{AllocError, Global};

const BLANKS: [u8; 4097] = [b'\n'; 4097];

// How many ends of lines come first, the text behind them, and what three reads of it say.
type Input = (usize, &'static str, &'static str);

static INPUTS: [Input; 29] = [
    (0, "12 -5 x", "12 -5 input "),
    (0, "12 -5", "12 -5 end "),
    (0, "\t1\r\n2 \n", "1 2 end "),
    (0, "", "end end end "),
    (0, " \t\r\n", "end end end "),
    (0, "x 1", "input input input "),
    (0, "-", "input input input "),
    (0, "- 1", "input input input "),
    (0, "--1", "input input input "),
    (0, "1-", "input input input "),
    (0, "+1", "input input input "),
    (0, "1.5", "input input input "),
    (0, "\0", "input input input "),
    (0, "-0 0", "0 0 end "),
    (0, "9223372036854775807", "9223372036854775807 end end "),
    (0, "9223372036854775808", "input input input "),
    (0, "-9223372036854775808", "-9223372036854775808 end end "),
    (0, "-9223372036854775809", "input input input "),
    (0, "00000000000000000001 2", "1 2 end "),
    (0, "000000000000000000001 2", "input input input "),
    (0, "-00000000000000000001", "input input input "),
    (4084, "-123456789012345 8", "-123456789012345 8 end "),
    (4094, "123 -45", "123 -45 end "),
    (4095, "7 x", "7 input input "),
    (4096, "3 4", "3 4 end "),
    (4096, "", "end end end "),
    (4096, "+3", "input input input "),
    (4097, "3", "input input input "),
    (4097, "", "input input input "),
];

// So many ends of lines and a text come, in pieces, while a call is to fail.
fn fill_source(
    source: &mut MemSource,
    blanks: usize,
    text: &str,
    piece: usize,
    failing: u64,
) -> Result<(), Memory>
    requires { 0 < piece }
{
    source.add(&BLANKS[..blanks.min(4097)])?;
    source.add(text.as_bytes())?;
    source.piece(piece);
    source.fail_at(failing)
}

// What the next number is. A call after a fault goes on.
fn next_of(numbers: &mut Numbers, source: &mut MemSource) -> Result<i64, NumberRefusal>
    requires { Follows numbers.old (Some source.old.left) }
    ensures { Follows numbers.new (Some source.new.left) }
{
    match numbers.next(source) {
        Err(NumberRefusal::InputFault) => numbers.next(source),
        other => other,
    }
}

// Whether one comes next. A call after a fault goes on.
fn more_of(numbers: &mut Numbers, source: &mut MemSource) -> Result<bool, InputFault>
    requires { Follows numbers.old (Some source.old.left) }
    ensures { Follows numbers.new (Some source.new.left) }
{
    match numbers.more(source) {
        Err(InputFault) => numbers.more(source),
        other => other,
    }
}

// What a refused read is called.
fn named(refusal: NumberRefusal, more: bool) -> &'static str {
    match refusal {
        NumberRefusal::Input => "input ",
        NumberRefusal::End if more => "more without more ",
        NumberRefusal::End => "end ",
        NumberRefusal::InputFault => "fault ",
    }
}

// Appends what a read says.
fn tell(
    said: &mut String,
    answer: Result<i64, NumberRefusal>,
    more: bool,
) -> Result<(), AllocError> {
    match answer {
        Ok(z) => write!(said, "{z} "),
        Err(refusal) => said.push_str(named(refusal, more)),
    }
}

// What three reads say, each with or without a question before it.
fn three_reads(source: &mut MemSource, asks: bool, said: &mut String) -> Result<(), AllocError> {
    let mut numbers = Numbers::new();
    'reads: for _ in 0..3 {
        let more = asks && !matches!(more_of(&mut numbers, source), Ok(false));
        let answer = next_of(&mut numbers, source);
        tell(said, answer, more)?;
    }
    Ok(())
}

// Whether three reads say what they should, in these pieces, while a call fails.
fn is_said(alloc: Global, row: &Input, piece: usize, failing: u64) -> bool
    requires { 0 < piece }
{
    let (blanks, text, want) = *row;
    let mut source = MemSource::new(alloc);
    let mut said = String::new(alloc);
    let is_filled = fill_source(&mut source, blanks, text, piece, failing).is_ok();
    let are_read = three_reads(&mut source, failing % 2 == 0, &mut said).is_ok();
    is_filled && are_read && said.as_str() == want
}

// The first call of 24 in a row whose failing makes three reads say anything else.
fn astray(alloc: Global, row: &Input, piece: usize) -> Option<u64>
    requires { 0 < piece }
{
    // the call that comes to the text, and those behind it
    let first = (row.0.min(4097) / piece) as u64;
    for more in 0..24 {
        let failing = first + more;
        if !is_said(alloc, row, piece, failing) {
            return Some(failing);
        }
    }
    None
}

#[test]
fn inputs_give_their_numbers_in_any_pieces_after_any_fault(rt: HostRuntime) {
    for row in &INPUTS {
        for piece in [1, 2, 20, 4096] {
            if let Some(failing) = astray(rt.alloc(), row, piece) {
                panic!(rt; "{} in {piece}, failing {failing}", row.1);
            }
        }
    }
}
