//! A region of the table, and what a collection answers (docs/architecture.md, "Regions").

use rg_base::Manager;
use smallvec::SmallVec;

/// What a collection kept of its region, and the head of the chain of the regions that it left
/// without an owner.
#[derive(Clone, Copy)]
pub struct Kept {
    pub kept: u64,
    pub orphans: Option<usize>,
}

/// A region. The link serves the managers.
#[derive(Drop)]
pub struct Region {
    pub number: u64,
    pub manager: Manager,
    pub members: SmallVec<usize, 1>,
    pub bridge: Option<usize>,
    pub link: Option<usize>,
}
