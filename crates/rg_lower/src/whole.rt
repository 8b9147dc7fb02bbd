//! A whole program (docs/language.md, "Instructions and lowering").

ghost use Rattle.std.specs.Prelude.{◌≡◌, ◌≤◌, IfOk, OnOk};
ghost use Rattle.rg_base.specs.declared.limits.TheConstants.{BODY_NAMES};
ghost use Rattle.rg_tree.specs.Rows.RowTrees.{program_of};
ghost use Rattle.rg_rules.specs.Names.{block_names};
ghost use Rattle.rg_code.specs.Code.{empty};
ghost use Rattle.rg_code.specs.Lowering.{main_code, slots_of, Lowers};

use crate::classes::{write_methods, write_openings};
use crate::slots::Slots;
use crate::statements::write_block;
use crate::writer::Writer;
use rg_base::Memory;
use rg_check::Accepted;
use rg_code::{CodeList, Op};
use rg_names::Book;
use std::alloc::Global;

/// The code of an accepted program, in one walk over its tree: the time is linear in the program,
/// however deep its blocks and expressions are.
pub fn lower(alloc: Global, accepted: &Accepted) -> Result<CodeList, Memory>
    ensures { IfOk result (Lowers (program_of accepted.now.program)) }
{
    let book = accepted.book();
    let mut code = Writer::new(alloc);
    write_main(alloc, &book, &mut code)?;
    write_methods(alloc, &book, &mut code)?;
    write_openings(alloc, &book, &mut code)?;
    let mut list = code.finish();
    list.find_shapes()?;
    Ok(list)
}

// Appends main's code to the empty one, with main's number of slots.
fn write_main(alloc: Global, book: &Book, code: &mut Writer) -> Result<(), Memory>
    requires names { block_names (program_of book.now.program).body ≤ BODY_NAMES }
    requires first { code.old ≡ empty }
    ensures { OnOk result (let main = main_code (program_of book.now.program) in
        code.new ≡ record empty { ops = main; main_slots = slots_of 0 main }) }
{
    let mut slots = Slots::new(alloc);
    write_block(book, &mut slots, book.main_body(), code)?;
    code.push(Op::Mark {
        line: book.program().main_line(),
    })?;
    code.push(Op::End { slot: 0 })?;
    code.push(Op::Halt)?;
    code.set_main_slots(code.slots_from(0, 0));
    Ok(())
}
