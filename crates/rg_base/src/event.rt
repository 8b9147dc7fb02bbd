//! Collections, as they are told to pacers and reported (docs/language.md, "Report").

use crate::words::Manager;

/// Why a region was collected.
#[derive(Clone, Copy, Debug, PartialEq, Eq)]
pub enum Cause {
    /// `collect`: a statement asked for it
    Asked,
    /// `paced`: a pacer said yes
    Paced,
}

/// A collection of one region.
#[derive(Clone, Copy, Debug, PartialEq, Eq)]
pub struct Event {
    /// the step in which it happened, counted from 1
    pub step: u64,
    /// the region's number
    pub region: u64,
    pub manager: Manager,
    pub cause: Cause,
    /// cells of the region before the collection
    pub held: u64,
    /// cells of the region after it
    pub kept: u64,
    /// regions that it released, those beneath included
    pub released: u64,
}

/// What a pacer is told of the active region.
#[derive(Clone, Copy, Debug, PartialEq, Eq)]
pub struct Census {
    /// cells of the region
    pub held: u64,
    /// how often the pacer was asked in this run since it last said yes, this time included
    pub since: u64,
}
