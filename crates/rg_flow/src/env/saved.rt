//! A point of a body to which the visible variables come back (docs/language.md, "Judgements").

use crate::flow::Flow;

/// The depth, how many variables are visible, and their states.
#[derive(Clone, Copy)]
pub struct Saved {
    pub depth: u32,
    pub len: u32,
    pub flow: Flow,
}
