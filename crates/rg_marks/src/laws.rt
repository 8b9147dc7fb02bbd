//! The laws of the lines that marks have, as contracts of functions that do nothing
//! (docs/architecture.md, "Modules").

ghost use Rattle.rg_marks.specs.Laws.{SameCode, CodeTellsLines};

/// Programs that are the same but for the lines that no mark has have the same code.
pub fn same_code()
    ensures { SameCode }
{}

/// Programs that are the same up to lines and have the same code are the same but for those lines.
pub fn code_tells_lines()
    ensures { CodeTellsLines }
{}
