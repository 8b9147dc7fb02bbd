//! The limits of a source and of a run (docs/language.md, "Limits").

/// The most bytes of a source: with them no count, line or row number leaves its type.
pub const SOURCE_BYTES: usize = 1_048_576;

/// The most bytes of a name.
pub const NAME_BYTES: usize = 64;

/// The greatest number that a source can write: the greatest `i64`.
pub const GREATEST_NUMBER: u64 = 9_223_372_036_854_775_807;

/// The most `{`, `(` and `[` that are open together: it bounds the depth of what follows a tree.
pub const BRACKETS: usize = 64;

/// The most classes of a program.
pub const CLASSES: usize = 1_024;

/// The most fields of a class.
pub const CLASS_FIELDS: usize = 64;

/// The most methods of a class.
pub const CLASS_METHODS: usize = 64;

/// The most parameters of a method, `self` not counted.
pub const PARAMETERS: usize = 16;

/// The most names of one body: `self`, the parameters, and those of `let` and `enter`. A frame has
/// no more slots.
pub const BODY_NAMES: usize = 256;

/// The most signs of two operands, `and` and `or` from a statement's first token to the next one's.
pub const STATEMENT_SIGNS: usize = 512;

/// The most frames, main's included: a call past them traps `depth`.
pub const FRAMES: usize = 4_096;

/// The most elements of an array: an array made with more traps `size`.
pub const ARRAY_SIZE: u32 = 65_535;

/// The most blanks in front of an input number.
pub const INPUT_BLANKS: usize = 4_096;

/// The most bytes of an input number: the least `i64` has so many.
pub const INPUT_TOKEN: usize = 20;

/// The most steps that a command can ask for.
pub const MOST_STEPS: u64 = 1_000_000_000;

/// The number of steps of a command that names none.
pub const USUAL_STEPS: u64 = 10_000_000;
