//! The law of canonical text, as the contract of a function that does nothing
//! (docs/language.md, "Canonical text").

ghost use Rattle.rg_tree.specs.Laws.{CanonParsesBack};

/// The canonical text of a tree that some source spells is cut and parsed into that tree, up to
/// lines, and what is parsed has the same canonical text.
pub fn canon_parses_back()
    ensures { CanonParsesBack }
{}
