//! The text of a whole program (docs/language.md, "Canonical text").

ghost use Rattle.std.specs.Prelude.{◌≡◌, ◌++◌, flat_map, IfOk, OnOk};
ghost use Rattle.rg_tree.specs.Canonical.{canon, class_text};
ghost use Rattle.rg_tree.specs.Rows.RowTrees.{classes_of, program_of};

use crate::classes::write_class;
use crate::lines::close_block;
use crate::statements::write_block;
use crate::words::manager_bytes;
use rg_base::{ByteList, Memory};
use rg_tree::Program;
use std::alloc::Global;

/// The canonical text of a program.
pub fn text(alloc: Global, program: &Program) -> Result<ByteList, Memory>
    ensures { IfOk result (λ bytes. bytes ≡ canon (program_of program.now)) }
{
    let mut out = ByteList::new(alloc);
    write_classes(program, &mut out)?;
    out.extend(b"main ")?;
    out.extend(manager_bytes(program.main_manager()))?;
    write_block(program, program.main_body(), 0, &mut out)?;
    close_block(0, &mut out)?;
    Ok(out)
}

// Appends the lines of all classes.
fn write_classes(program: &Program, out: &mut ByteList) -> Result<(), Memory>
    ensures { OnOk result (out.new ≡ out.old ++ flat_map class_text (classes_of program.now)) }
{
    for i in 0..program.class_count() {
        write_class(program, program.class(i), out)?;
    }
    Ok(())
}
