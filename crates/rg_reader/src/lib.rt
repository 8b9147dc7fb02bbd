//! Goes over the tokens of a source and puts rows into its program on the way (docs/language.md,
//! "Grammar" and "Limits"). A `Reader` passes tokens as they are expected, counts what the limits
//! count, and adds rows; types, paths, calls and expressions are read here, by methods of it in
//! `rules`, all that stands above them in `rg_parse`.
#![tactic(auto)]

mod key;
mod reader;
mod rules;

pub use reader::Reader;
pub use reader::builder::keep;
pub use reader::halt::Halt;
pub use reader::limits::Role;
