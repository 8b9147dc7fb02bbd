//! The stack machine that a heap with its frames shows: definitions, and laws for the crates that
//! run code over a heap (docs/architecture.md, "The machine that frees").
#![tactic(auto)]
