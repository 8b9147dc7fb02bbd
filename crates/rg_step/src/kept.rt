//! What a stepper keeps of the steps that it made (docs/architecture.md, "The stepper").

use rg_base::Event;

/// How often the pacer of each manager was asked since it last said yes.
#[derive(Drop)]
pub(crate) struct Since {
    pub(crate) count: u64,
    pub(crate) trace: u64,
}

/// How many steps were made, as far as 64 bits count, how often pacers were asked since their last
/// yes, whether a collection of a traced region moves what it keeps, and the collections in order.
#[derive(Drop)]
pub(crate) struct Kept {
    pub(crate) steps: u64,
    pub(crate) since: Since,
    pub(crate) slides: bool,
    pub(crate) events: Vec<Event>,
}
