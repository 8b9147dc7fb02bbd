//! The cells of the table of rows, as the bytes that they stand for (docs/architecture.md,
//! "Tests").

use std::alloc::Global;

/// `before[count:text]behind`
#[derive(Drop)]
struct Repeated<'a> {
    before: &'a str,
    count: u64,
    text: &'a str,
    behind: &'a str,
}

/// The first repetition of a cell.
fn first_repetition(cell: &str) -> Option<Repeated<'_>> {
    let (before, rest) = cell.split_once('[')?;
    let (inside, behind) = rest.split_once(']')?;
    let (count, text) = inside.split_once(':')?;
    Some(Repeated {
        before,
        count: count.parse().ok()?,
        text,
        behind,
    })
}

/// Appends a text in which `~` is the end of a line, and `\0` to `\9` are the bytes 0 to 9; None
/// where no memory was found.
fn append_bytes(text: &str, bytes: &mut Vec<u8>) -> Option<()> {
    let mut counts = false;
    for byte in text.bytes() {
        match byte {
            digit if counts => {
                bytes.push(digit.wrapping_sub(b'0')).ok()?;
                counts = false;
            }
            b'\\' => counts = true,
            b'~' => bytes.push(b'\n').ok()?,
            other => bytes.push(other).ok()?,
        }
    }
    Some(())
}

/// What a `#` stands for at a number, and what stands behind it: `<A+B>` there makes it A times the
/// number and B.
fn counted(behind: &str, number: u64) -> Option<(u64, &str)> {
    let Some(form) = behind.strip_prefix('<') else {
        return Some((number, behind));
    };
    let (factor, rest) = form.split_once('+')?;
    let (summand, rest) = rest.split_once('>')?;
    let product = number.checked_mul(factor.parse().ok()?)?;
    Some((product.checked_add(summand.parse().ok()?)?, rest))
}

/// Appends a text with its numbers; None where no memory was found.
fn append(alloc: Global, text: &str, number: u64, bytes: &mut Vec<u8>) -> Option<()> {
    let mut rest = text;
    for _ in 0..text.len() {
        let Some((before, behind)) = rest.split_once('#') else {
            break;
        };
        append_bytes(before, bytes)?;
        let (value, behind) = counted(behind, number)?;
        let digits = format!(in alloc; "{value}").ok()?;
        bytes.extend_from_slice(digits.as_bytes()).ok()?;
        rest = behind;
    }
    append_bytes(rest, bytes)
}

/// What a cell stands for: `~` is the end of a line, `\0` to `\9` are the bytes 0 to 9, and
/// `[N:TEXT]` is TEXT N times, where `#` is the number of the time, from 0, and `#<A+B>` A times
/// that number and B. None where no memory was found.
pub fn expanded(alloc: Global, cell: &str) -> Option<Vec<u8>> {
    let mut bytes = Vec::new(alloc);
    let mut rest = cell;
    for _ in 0..cell.len() {
        let Some(first) = first_repetition(rest) else {
            break;
        };
        append(alloc, first.before, 0, &mut bytes)?;
        for number in 0..first.count {
            append(alloc, first.text, number, &mut bytes)?;
        }
        rest = first.behind;
    }
    append(alloc, rest, 0, &mut bytes)?;
    Some(bytes)
}
