//! Why there is no number (docs/language.md, "Input numbers").

/// The source failed: its count of faults rose in the call.
#[derive(Clone, Copy, Debug, PartialEq, Eq)]
pub struct InputFault;

/// Why there is no next number.
#[derive(Clone, Copy, Debug, PartialEq, Eq)]
pub enum NumberRefusal {
    /// nothing is left but blanks
    End,
    /// what comes next is no number
    Input,
    /// the source failed
    InputFault,
}
