//! Tests of cells, regions, frames and the heap, a file for each subject: that ample memory is
//! enough, and what is linear at any depth (docs/architecture.md, "Tests").
#![tactic(auto)]

#[cfg(test)]
mod cargo;
#[cfg(test)]
mod cells;
#[cfg(test)]
mod collections;
#[cfg(test)]
mod frames;
#[cfg(test)]
mod heap;
#[cfg(test)]
mod moves;
#[cfg(test)]
mod regions;
#[cfg(test)]
mod release;
#[cfg(test)]
mod sliding;
