//! The piece that begins the bytes (docs/language.md, "Tokens").

ghost use Rattle.std.specs.Prelude.{◌≡◌, ◌<◌, true, false, [], ◌∷◌, length, slice_index};
ghost use Rattle.rg_base.specs.Words.{keyword_of, sign_of};
ghost use Rattle.rg_base.specs.Pieces.{is_blank, is_digit, is_letter};
ghost use Rattle.rg_base.specs.Tokens.{word_or_name};
ghost use Rattle.rg_lex.specs.Inner.Front.{front_of, marked};

use crate::keyword::keyword;
use crate::number::value;
use crate::runs::{
    begins_comment, begins_with_letter, comment_run, digit_run, is_blank_byte, is_digit_byte,
    is_letter_byte, name_run,
};
use crate::signs::{pair, single};
use rg_base::{Code, Kind, NAME_BYTES, Sign};

/// What begins the bytes: a token, or none at a blank or a comment; and how long it is.
#[derive(Clone, Copy)]
pub(crate) struct Front {
    pub kind: Option<Kind>,
    pub len: usize,
}

/// The piece that begins the bytes, or its fault.
pub(crate) fn read_front(bytes: &[u8]) -> Result<Front, Code>
    requires { 0 < length bytes.now }
    ensures { result ≡ front_of bytes.now }
{
    let first = bytes[0];
    if is_blank_byte(first) {
        Ok(Front { kind: None, len: 1 })
    } else if is_letter_byte(first) {
        read_name(bytes)
    } else if is_digit_byte(first) {
        read_number(bytes)
    } else {
        read_mark(bytes)
    }
}

/// A name or a reserved word.
fn read_name(bytes: &[u8]) -> Result<Front, Code>
    requires { is_letter (slice_index bytes.now 0) ≡ true }
    ensures { result ≡ front_of bytes.now }
{
    let len = name_run(bytes);
    if len > NAME_BYTES {
        return Err(Code::Name);
    }
    let kind = Some(name_kind(&bytes[..len]));
    Ok(Front { kind, len })
}

/// A reserved word, or else a name.
fn name_kind(text: &[u8]) -> Kind
    ensures { result ≡ word_or_name (keyword_of text.now) }
{
    match keyword(text) {
        Some(word) => Kind::Word(word),
        None => Kind::Name,
    }
}

/// A number.
fn read_number(bytes: &[u8]) -> Result<Front, Code>
    requires { is_digit (slice_index bytes.now 0) ≡ true }
    ensures { result ≡ front_of bytes.now }
{
    let len = digit_run(bytes);
    if begins_with_letter(&bytes[len..]) {
        return Err(Code::Number);
    }
    match value(&bytes[..len]) {
        Some(number) => {
            let kind = Some(Kind::Number(number as i64));
            Ok(Front { kind, len })
        }
        None => Err(Code::Number),
    }
}

/// A comment or a sign.
fn read_mark(bytes: &[u8]) -> Result<Front, Code>
    requires some { 0 < length bytes.now }
    requires blank { is_blank (slice_index bytes.now 0) ≡ false }
    requires letter { is_letter (slice_index bytes.now 0) ≡ false }
    requires digit { is_digit (slice_index bytes.now 0) ≡ false }
    ensures { result ≡ front_of bytes.now }
{
    let first = bytes[0];
    if bytes.len() < 2 {
        return read_single(first);
    }
    let second = bytes[1];
    if begins_comment(first, second) {
        let len = comment_run(bytes);
        return Ok(Front { kind: None, len });
    }
    match pair(first, second) {
        Some(sign) => Ok(mark(sign, 2)),
        None => read_single(first),
    }
}

fn read_single(first: u8) -> Result<Front, Code>
    ensures { result ≡ marked (sign_of (first ∷ [])) }
{
    match single(first) {
        Some(sign) => Ok(mark(sign, 1)),
        None => Err(Code::Byte),
    }
}

fn mark(sign: Sign, len: usize) -> Front
    ensures { result ≡ record { kind = Some (Kind.Mark sign); len = len } }
{
    Front {
        kind: Some(Kind::Mark(sign)),
        len,
    }
}
