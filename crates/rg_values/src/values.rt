//! What expressions and paths stand for; nothing is changed but what an expression uses up
//! (docs/language.md, "Steps").

pub(crate) mod arguments;
pub(crate) mod elements;
pub(crate) mod expressions;
pub(crate) mod methods;
pub(crate) mod paths;
pub(crate) mod types;
pub(crate) mod uses;
