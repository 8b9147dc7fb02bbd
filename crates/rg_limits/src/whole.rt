//! Whether a program passes no limit (docs/language.md, "Limits").

ghost use Rattle.rg_tree.specs.Rows.RowTrees.{program_of};
ghost use Rattle.rg_limits.specs.Parts.{HasFewParts};
ghost use Rattle.rg_limits.specs.Limits.{IsWithinLimits};
ghost use Rattle.rg_limits.specs.Telling.{Tells};

use crate::bodies::{are_classes_fine, is_main_fine};
use rg_tree::Program;

/// Whether a program passes no limit of a source. It asks for few parts, and tests the others
/// (docs/language.md, "Limits"). However deep the program is, it is followed no deeper than the
/// limits on signs and brackets let it be.
pub fn is_within_limits(program: &Program) -> bool
    requires { HasFewParts (program_of program.now) }
    ensures { Tells result (IsWithinLimits (program_of program.now)) }
{
    if !are_classes_fine(program) {
        return false;
    }
    is_main_fine(program)
}
