//! Faults of a source, and what stops a call (docs/language.md, "Diagnostics").

/// No memory was found.
#[derive(Clone, Copy, Debug, PartialEq, Eq)]
pub struct Memory;

/// What is wrong with a source: one variant for each diagnostic.
#[derive(Clone, Copy, Debug, PartialEq, Eq)]
pub enum Code {
    /// `E01 byte`: a byte with which no piece of a source begins
    Byte,
    /// `E02 number`: a number past its limit, or with a letter right behind it
    Number,
    /// `E03 name`: a name of more than 64 bytes
    Name,
    /// `E10 syntax`: a token that the grammar doesn't take there
    Syntax,
    /// `E11 nesting`: a bracket too deep
    Nesting,
    /// `E12 limit`: one too many of what a limit counts
    Limit,
    /// `E20 unknown`: a name that nothing has
    Unknown,
    /// `E21 duplicate`: a name that is there already
    Duplicate,
    /// `E22 bad type`: a type that can't stand there
    BadType,
    /// `E30 mismatch`: a type other than the one expected
    Mismatch,
    /// `E31 unavailable`: an `iso` variable that is gone or lent
    Unavailable,
    /// `E32 capability`: a reference that doesn't permit it
    Capability,
    /// `E33 outside window`: a variable that can't be assigned there
    OutsideWindow,
    /// `E34 loop`: a loop that may consume what was ready at its head
    Loop,
    /// `E35 arity`: another number of arguments than of parameters
    Arity,
    /// `E36 iso field`: an `iso` field used as a value
    IsoField,
    /// `E37 return`: a `return` that is missing or misplaced
    Return,
    /// `E38 call target`: a call whose result goes into a field
    CallTarget,
    /// `E91 module`: bytes that spell no module
    Module,
    /// `E92 unverified`: a module that no program raises
    Unverified,
    /// `E93 plan`: a line of a plan that breaks its rules
    Plan,
    /// `E94 schedule`: a number of a schedule that is malformed or names no behaviour
    Schedule,
    /// `E95 image`: bytes that are the image of no content that the program may hold
    Image,
}

/// A diagnostic at a line, counted from 1; a module, and a plan or image as a whole, has line 0.
#[derive(Clone, Copy, Debug, PartialEq, Eq)]
pub struct Fault {
    pub code: Code,
    pub line: u64,
}

/// Why there is no answer.
#[derive(Clone, Copy, Debug, PartialEq, Eq)]
pub enum Stop {
    Fault(Fault),
    Memory,
}
