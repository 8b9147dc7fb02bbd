//! Cowns of a plan (docs/architecture.md, "Plans").

use crate::file_name::FileName;
use rg_base::Manager;

/// With what a cown begins.
#[derive(Drop)]
pub enum Start {
    /// `cown C M`: with a new object, in a closed region of that manager
    New(Manager),
    /// `load C NAME`: with the image in the file of that name
    Image(FileName),
}

/// A cown, which goes by its number, from 0.
#[derive(Drop)]
pub struct Cown {
    /// the number of the class of its content
    pub class: u32,
    pub start: Start,
    /// the line that makes it, counted from 1
    pub line: u64,
}
