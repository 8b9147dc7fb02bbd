//! Kinds of bytes, and runs of them at the front (docs/language.md, "Tokens").

ghost use Rattle.std.specs.Prelude.{◌≡◌, ◌≤◌, ◌==◌, ◌&&◌, length};
ghost use Rattle.std.specs.List.{prefix_len};
ghost use Rattle.rg_base.specs.Pieces.{is_blank, is_digit, is_letter, is_in_name, is_in_comment};
ghost use Rattle.rg_base.specs.Tokens.{begins_name};

/// A space, a tab, the end of a line or a carriage return.
pub(crate) fn is_blank_byte(b: u8) -> bool
    ensures { result ≡ is_blank b }
{
    matches!(b, b' ' | b'\t' | b'\n' | b'\r')
}

/// 0 to 9.
pub(crate) fn is_digit_byte(b: u8) -> bool
    ensures { result ≡ is_digit b }
{
    b.is_ascii_digit()
}

/// A letter or `_`.
pub(crate) fn is_letter_byte(b: u8) -> bool
    ensures { result ≡ is_letter b }
{
    b.is_ascii_alphabetic() || b == b'_'
}

/// What stands in a name behind its first byte.
fn is_name_byte(b: u8) -> bool
    ensures { result ≡ is_in_name b }
{
    is_letter_byte(b) || is_digit_byte(b)
}

/// How many bytes at the front are letters, digits and `_`.
pub(crate) fn name_run(bytes: &[u8]) -> usize
    ensures run { result ≡ prefix_len is_in_name bytes.now }
    ensures within { result ≤ length bytes.now }
{
    bytes.iter().take_while(|b| is_name_byte(**b)).count()
}

/// How many bytes at the front are digits.
pub(crate) fn digit_run(bytes: &[u8]) -> usize
    ensures run { result ≡ prefix_len is_digit bytes.now }
    ensures within { result ≤ length bytes.now }
{
    bytes.iter().take_while(|b| is_digit_byte(**b)).count()
}

/// How many bytes stand in front of the first end of a line.
pub(crate) fn comment_run(bytes: &[u8]) -> usize
    ensures run { result ≡ prefix_len is_in_comment bytes.now }
    ensures within { result ≤ length bytes.now }
{
    bytes.iter().take_while(|b| **b != b'\n').count()
}

/// Two slashes, with which a comment begins.
pub(crate) fn begins_comment(a: u8, b: u8) -> bool
    ensures { result ≡ (a == 47 && b == 47) }
{
    a == b'/' && b == b'/'
}

/// Whether a letter or `_` comes first.
pub(crate) fn begins_with_letter(bytes: &[u8]) -> bool
    ensures { result ≡ begins_name bytes.now }
{
    match bytes.first() {
        Some(b) => is_letter_byte(*b),
        None => false,
    }
}
