//! The laws of programs that pass no limit, as contracts of functions that do nothing
//! (docs/language.md, "Limits").

ghost use Rattle.rg_limits.specs.Laws.{LimitsAreLineless, LimitsBound, OpensAreBrackets};
ghost use Rattle.rg_limits.specs.Laws.{OpensBoundBlocks};

/// Such a program has few parts, and its blocks are no deeper than brackets may be.
pub fn limits_bound()
    ensures { LimitsBound }
{}

/// Where no name has a bracket, the brackets that are open together in the canonical text of a
/// program are those that its tree says.
pub fn opens_are_brackets()
    ensures { OpensAreBrackets }
{}

/// These bound its blocks.
pub fn opens_bound_blocks()
    ensures { OpensBoundBlocks }
{}

/// A program that is the same but for lines that no mark has is such a program, too.
pub fn limits_are_lineless()
    ensures { LimitsAreLineless }
{
    rg_lines::same_names();
}
