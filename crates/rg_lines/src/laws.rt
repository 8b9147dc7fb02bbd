//! The laws of programs that are the same but for the lines that no mark has, as contracts of
//! functions that do nothing (docs/architecture.md, "Modules").

ghost use Rattle.rg_lines.specs.Laws.{SameUpToLines, SameText, SameNames, SameFault};
ghost use Rattle.rg_lines.specs.Laws.{SameAcceptance, SameRuns, SameAsks};

/// They are the same up to all lines.
pub fn same_up_to_lines()
    ensures { SameUpToLines }
{}

/// They have the same canonical text.
pub fn same_text()
    ensures { SameText }
{}

/// Where no body of the one has more names than a body may have, none of the other has.
pub fn same_names()
    ensures { SameNames }
{}

/// They have the same first fault, up to its line.
pub fn same_fault()
    ensures { SameFault }
{}

/// Where the one is accepted, so is the other.
pub fn same_acceptance()
    ensures { SameAcceptance }
{}

/// On each input they have the same run, with the lines at which it traps.
pub fn same_runs()
    ensures { SameRuns }
{}

/// They ask the pacers at the same steps.
pub fn same_asks()
    ensures { SameAsks }
{}
