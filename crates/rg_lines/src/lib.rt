//! Programs that are the same but for the lines that no mark of their code has
//! (`specs/Unlined`; docs/architecture.md, "Modules"), and laws that such lines change neither
//! acceptance nor runs. A module has the lines of marks alone, so of a tree that is raised from one
//! these laws say what they say of the tree that was packed.
#![tactic(auto)]

mod laws;

pub use laws::{
    same_acceptance, same_asks, same_fault, same_names, same_runs, same_text, same_up_to_lines,
};
