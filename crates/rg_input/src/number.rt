//! The number that a token is (docs/language.md, "Input numbers").

ghost use Rattle.std.specs.Prelude.{◌≡◌, ◌<◌, ◌≤◌, true, IfSome, IfNone, pos, neg_ℤ};
ghost use Rattle.std.specs.Prelude.{option_map, option_and_then};
ghost use Rattle.std.specs.List.{list_all};
ghost use Rattle.rg_base.specs.Input.{digits_number, ranged, token_number};
ghost use Rattle.rg_base.specs.Pieces.{is_digit};
ghost use Rattle.rg_base.specs.Tokens.{value_of};
ghost use Rattle.rg_input.specs.Inner.Limit.{at_most};

use rg_base::{GREATEST_NUMBER, INPUT_TOKEN};

/// How far below 0 the least `i64` lies.
const FARTHEST: u64 = 1 << 63;

/// The value of one or more digits, where it is within the limit.
fn value_within(digits: &[u8], most: u64) -> Option<u64>
    requires { 9 ≤ most }
    ensures { result ≡ option_and_then (at_most most) (digits_number digits.now) }
{
    if digits.is_empty() {
        return None;
    }
    // below it any digit may come
    let near = most / 10;
    let mut value: u64 = 0;
    for b in digits {
        if !b.is_ascii_digit() {
            return None;
        }
        let digit = u64::from(*b - b'0');
        if value >= near && value > (most - digit) / 10 {
            return None;
        }
        value = value * 10 + digit;
    }
    Some(value)
}

/// The number of digits behind a minus.
fn negative(digits: &[u8]) -> Option<i64>
    ensures { result ≡ option_and_then ranged (
        option_map (λ n. neg_ℤ (pos n)) (digits_number digits.now)) }
{
    let far = value_within(digits, FARTHEST)?;
    Some(-i128::from(far) as i64)
}

/// The number of digits.
fn positive(digits: &[u8]) -> Option<i64>
    ensures { result ≡ option_and_then ranged (option_map pos (digits_number digits.now)) }
{
    let far = value_within(digits, GREATEST_NUMBER)?;
    Some(far as i64)
}

/// The number that a token is, if it is one.
pub(crate) fn token_number(token: &[u8]) -> Option<i64>
    ensures { result ≡ token_number token.now }
{
    if token.len() > INPUT_TOKEN {
        return None;
    }
    match token {
        [b'-', digits @ ..] => negative(digits),
        digits => positive(digits),
    }
}
