//! What the machine keeps, and what is read and changed of it (docs/language.md, "Steps").

pub(crate) mod items;
pub(crate) mod locals;
pub(crate) mod parts;
pub(crate) mod rows;
