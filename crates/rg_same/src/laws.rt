//! The laws of modules and lines, as contracts of functions that do nothing
//! (docs/architecture.md, "Modules").

ghost use Rattle.rg_same.specs.Laws.{SameModule, ModuleTellsLines};

/// Programs that are the same but for the lines that no mark has have the same module.
pub fn same_module()
    ensures { SameModule }
{}

/// Programs that are the same up to lines and have the same module are the same but for those
/// lines.
pub fn module_tells_lines()
    ensures { ModuleTellsLines }
{}
