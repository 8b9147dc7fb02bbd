//! The module of a whole program (docs/architecture.md, "Modules").

ghost use Rattle.std.specs.Prelude.{◌≡◌, IfOk};
ghost use Rattle.rg_tree.specs.Rows.RowTrees.{program_of};
ghost use Rattle.rg_code.specs.Lowering.{Lowers};
ghost use Rattle.rg_module.specs.Spelling.{spelling, IsSpelt};
ghost use Rattle.rg_build.specs.ModuleOf.{module_of};

use crate::bodies::put_program;
use crate::classes::add_classes;
use crate::copies::copy;
use crate::heads::add_heads;
use crate::laying::Laying;
use rg_base::{ByteList, Memory};
use rg_check::Accepted;
use rg_code::CodeList;
use rg_module::{Module, encode};
use std::alloc::Global;

/// The module of an accepted program, from its code, which is copied. The time is linear in the
/// program, its code and its maps. More instructions or methods than have a count of 32 bits count
/// as want of memory.
pub fn build(alloc: Global, accepted: &Accepted, code: &CodeList) -> Result<Module, Memory>
    requires { Lowers (program_of accepted.now.program) code.now }
    ensures is { IfOk result (λ m. m ≡ module_of (program_of accepted.now.program)) }
    ensures spelt { IfOk result IsSpelt }
{
    accepted.program();
    let book = accepted.book();
    let manager = book.main_manager();
    let own = copy(alloc, code, book.class_count())?;
    let mut module = Module::new(alloc, manager, own);
    add_classes(alloc, &book, &mut module)?;
    add_heads(alloc, &book, &mut module)?;
    let mut laying = Laying { module, at: 0 };
    put_program(alloc, &book, &mut laying)?;
    Ok(laying.module)
}

/// The bytes of the module of an accepted program, from its code; as `build`, and the bytes are
/// those that `rg_module` has for it.
pub fn packed(alloc: Global, accepted: &Accepted, code: &CodeList) -> Result<ByteList, Memory>
    requires { Lowers (program_of accepted.now.program) code.now }
    ensures { IfOk result (λ bytes. bytes
        ≡ spelling (module_of (program_of accepted.now.program))) }
{
    let module = build(alloc, accepted, code)?;
    let bytes = encode(alloc, &module)?;
    Ok(bytes)
}
