//! A program raised from its module (docs/architecture.md, "Modules").

ghost use Rattle.rg_raised.specs.Told.{program_told, IsRaised};

use rg_base::BRACKETS;
use rg_bodies::raise_bodies;
use rg_classes::{Methods, add_classes, find_callees};
use rg_module::Module;
use rg_tree::Program;
use rg_verify_expressions::Refusal;
use std::alloc::Global;

/// The program that a module tells, or that it tells none.
pub fn raise_module(alloc: Global, module: &Module) -> Result<Program, Refusal>
    ensures { IsRaised (program_told module.now) result }
{
    let callees = find_callees(alloc, module.classes(), module.methods())?;
    let mut program = Program::new(alloc);
    let bodies = raise_bodies(alloc, module, callees.as_slice(), &mut program, BRACKETS)?;
    let methods = Methods {
        heads: module.methods(),
        bodies: bodies.methods.as_slice(),
    };
    let Ok(()) = add_classes(alloc, &mut program, module.classes(), &methods) else {
        return Err(Refusal::Memory);
    };
    program.set_main(module.manager(), bodies.main.block, bodies.main.line);
    Ok(program)
}
