//! Tests of what no clause says, a file for each subject: that ample memory is enough, what the
//! system does, and tables compared with what is written down elsewhere
//! (docs/architecture.md, "Tests").
#![tactic(auto)]

#[cfg(test)]
mod capabilities;
#[cfg(test)]
mod flow;
#[cfg(test)]
mod generated;
#[cfg(test)]
mod images;
#[cfg(test)]
mod judged;
#[cfg(test)]
mod lists;
#[cfg(test)]
mod modules;
#[cfg(test)]
mod numbers;
#[cfg(test)]
mod pacers;
#[cfg(test)]
mod paths;
#[cfg(test)]
mod plain;
#[cfg(test)]
mod programs;
#[cfg(test)]
mod raised;
#[cfg(test)]
mod report;
#[cfg(test)]
mod streams;
#[cfg(test)]
mod tokens;
#[cfg(test)]
mod verified;
