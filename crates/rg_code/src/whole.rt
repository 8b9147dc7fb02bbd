//! The listing of a program's code (docs/language.md, "Instructions and lowering").

ghost use Rattle.std.specs.Prelude.{◌≡◌, ◌++◌, drop, map, IfOk, OnOk};
ghost use Rattle.rg_tree.specs.Rows.RowTrees.{program_of};
ghost use Rattle.rg_code.specs.Listing as texts;
ghost use Rattle.rg_code.specs.Inner.Headings.{shown};

use crate::code::CodeList;
use crate::headings::{Heading, headings};
use crate::texts::write_line;
use rg_base::{ByteList, Memory};
use rg_tree::Program;
use std::alloc::Global;

/// The listing of the code of a program.
pub fn listing(alloc: Global, program: &Program, code: &CodeList) -> Result<ByteList, Memory>
    ensures { IfOk result (λ text. text ≡ texts.listing (program_of program.now) code.now) }
{
    let all = headings(alloc, program, code.entries())?;
    let mut out = ByteList::new(alloc);
    out.extend(b"main:\n")?;
    write_lines(code, all.as_slice(), &mut out)?;
    Ok(out)
}

// Appends the lines of all instructions, with a heading in front of each method.
fn write_lines(code: &CodeList, all: &[Heading], out: &mut ByteList) -> Result<(), Memory>
    ensures { OnOk result (out.new ≡ out.old ++ texts.lines (map shown all.now) 0 code.now.ops) }
{
    let mut next = 0;
    for at in 0..code.len() {
        next = write_heading(all, next, at, out)?;
        write_line(at, code.get(at), out)?;
    }
    Ok(())
}

// Appends the next heading, if it stands at an address, and answers which one comes behind it.
fn write_heading(
    all: &[Heading],
    next: usize,
    at: usize,
    out: &mut ByteList,
) -> Result<usize, Memory>
    ensures wrote { OnOk result (out.new
        ≡ out.old ++ texts.heading_at at (map shown (drop next all.now))) }
    ensures behind { IfOk result (λ behind. map shown (drop behind all.now)
        ≡ texts.headings_behind at (map shown (drop next all.now))) }
{
    let Some(first) = all.get(next) else {
        return Ok(next);
    };
    if first.at != at {
        return Ok(next);
    }
    out.extend(first.class)?;
    out.push(b'.')?;
    out.extend(first.method)?;
    out.extend(b":\n")?;
    Ok(next + 1)
}
