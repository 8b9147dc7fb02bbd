//! How a call ends (docs/language.md, "Statuses").

ghost use Rattle.std.specs.Prelude.{◌≡◌, ◌≤◌, length};
ghost use Rattle.rg_words.specs.Statuses.{number_of, trap_text};

use rg_base::{Fault, Trap};

/// How a call of the program ends (docs/language.md, "Statuses").
#[derive(Clone, Copy, Debug, PartialEq, Eq)]
pub enum Status {
    /// 0: the program is done, or the command's text is written
    Done,
    /// 1: the source has that fault, or the module, the plan, an image or the schedule
    Refused(Fault),
    /// 2: the words are no command
    Usage,
    /// 3: a step stopped the program, at a line counted from 1
    Trap { kind: Trap, line: u64 },
    /// 4: the program still runs after all steps that were asked for, or the schedule has more
    /// numbers than it may
    Spent,
    /// 4: a running behaviour has the content that was to be kept, behind so many numbers
    Away { taken: u64 },
    /// 5: the file couldn't be read
    SourceFault,
    /// 6: the input couldn't be read
    InputFault,
    /// 7: the output or the notes couldn't be written
    OutputFault,
    /// 8: no memory was found
    Memory,
    /// 9: the source or the plan has more than 1,048,576 bytes, or the module or an image more
    /// than 16,777,216
    Long,
}

impl Status {
    /// The number that the process ends with, from 0 to 9.
    pub fn number(self) -> u8
        ensures { result ≡ number_of self }
    {
        match self {
            Status::Done => 0,
            Status::Refused(_) => 1,
            Status::Usage => 2,
            Status::Trap { .. } => 3,
            Status::Spent => 4,
            Status::Away { .. } => 4,
            Status::SourceFault => 5,
            Status::InputFault => 6,
            Status::OutputFault => 7,
            Status::Memory => 8,
            Status::Long => 9,
        }
    }
}

/// The words of a trap, which no line follows yet.
pub fn trap_words(kind: Trap) -> &'static [u8]
    ensures words { result.now ≡ trap_text kind }
    ensures short { length result.now ≤ 20 }
{
    match kind {
        Trap::Nil => b"trap nil",
        Trap::Overflow => b"trap overflow",
        Trap::Zero => b"trap zero",
        Trap::Input => b"trap input",
        Trap::End => b"trap end",
        Trap::Depth => b"trap depth",
        Trap::Size => b"trap size",
        Trap::Index => b"trap index",
    }
}
