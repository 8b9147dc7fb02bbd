//! The words of a line (docs/architecture.md, "Plans").

ghost use Rattle.std.specs.Prelude.{◌≡◌, bytes_eq};
ghost use Rattle.std.specs.List.{list_all};
ghost use Rattle.rg_base.specs.Pieces.{is_digit};
ghost use Rattle.rg_base.specs.Words.{beside};
ghost use Rattle.rg_plan.specs.Lines as rules;

use crate::limits::NUMBER_DIGITS;
use rg_base::Manager;

/// Whether two texts are the same.
pub fn is(text: &[u8], word: &[u8]) -> bool
    ensures { result ≡ bytes_eq word.now text.now }
{
    word == text
}

/// The manager of a word.
pub fn manager_of(word: &[u8]) -> Option<Manager>
    ensures { result ≡ beside rules.managers word.now }
{
    if is(word, b"arena") {
        return Some(Manager::Arena);
    }
    if is(word, b"count") {
        return Some(Manager::Count);
    }
    if is(word, b"trace") {
        return Some(Manager::Trace);
    }
    None
}

/// The number that one to four digits write.
pub fn number(word: &[u8]) -> Option<u32>
    ensures { result ≡ rules.number word.now }
{
    if word.len() > NUMBER_DIGITS {
        return None;
    }
    if word.is_empty() {
        return None;
    }
    if !are_digits(word) {
        return None;
    }
    let mut value: u32 = 0;
    for b in word {
        value = value * 10 + u32::from(*b - b'0');
    }
    Some(value)
}

// Whether all bytes are digits.
fn are_digits(word: &[u8]) -> bool
    ensures { result ≡ list_all is_digit word.now }
{
    word.iter().all(|b| b.is_ascii_digit())
}

/// Whether a plan may name a file so.
pub fn is_file_name(word: &[u8]) -> bool
    ensures { result ≡ rules.is_file_name word.now }
{
    match word {
        [] => false,
        [_, ..] => are_visible(word),
    }
}

// Whether all bytes may stand in the name of a file.
fn are_visible(word: &[u8]) -> bool
    ensures { result ≡ list_all rules.is_visible word.now }
{
    word.iter().all(|b| is_visible_byte(*b))
}

// Whether a byte may stand in the name of a file.
fn is_visible_byte(b: u8) -> bool
    ensures { result ≡ rules.is_visible b }
{
    b.is_ascii_graphic()
}
