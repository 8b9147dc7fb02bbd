//! The images of a plan (docs/architecture.md, "Images"). `images_in` reads the files that the
//! `load` lines of a plan name, in their order: it answers a content for each cown, else `E95` at
//! the first line whose file is no image of what its cown may have, or that a file is too long.
//! `specs/Loading` says so of the bytes of the files, and `specs/Files` of files that have them.
//! The law `loads_come_to_one`: their bytes come to one answer.
#![tactic(auto)]

mod content;
mod images;
mod laws;
mod limits;

pub use images::images_in;
pub use laws::loads_come_to_one;
pub use limits::IMAGE_BYTES;
