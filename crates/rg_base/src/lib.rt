//! The plain types that all layers share, and the definitions of tokens and texts
//! (docs/language.md). `Vals` and `ByteList` are lists, each call of which is exact; `Steps` is a
//! counter to which `tick` adds one. `Stop` is a `Fault`, which is a `Code` with its line, or want
//! of memory. `specs/Tokens` cuts a source (`cut`), `specs/Input` reads the numbers of an input,
//! and `specs/{Text,Diagnostics,Report}` say the texts that other crates write.
#![tactic(auto)]

mod byte_list;
mod event;
mod fault;
mod limits;
mod object;
mod outcome;
mod steps;
mod token;
mod ty;
mod value;
mod words;

pub use byte_list::ByteList;
pub use event::{Cause, Census, Event};
pub use fault::{Code, Fault, Memory, Stop};
pub use limits::{
    ARRAY_SIZE, BODY_NAMES, BRACKETS, CLASS_FIELDS, CLASS_METHODS, CLASSES, FRAMES,
    GREATEST_NUMBER, INPUT_BLANKS, INPUT_TOKEN, MOST_STEPS, NAME_BYTES, PARAMETERS, SOURCE_BYTES,
    STATEMENT_SIGNS, USUAL_STEPS,
};
pub use object::{Label, Place, Seen};
pub use outcome::{EndNumbers, Ended, Outcome, Trap};
pub use steps::Steps;
pub use token::{Kind, Token};
pub use ty::Ty;
pub use value::{Val, Vals, Word};
pub use words::{Cap, Keyword, Manager, Sign};
