//! The value of digits (docs/language.md, "Tokens").

ghost use Rattle.std.specs.Prelude.{◌≡◌, ◌<◌, ◌≤◌, true, IfSome, IfNone};
ghost use Rattle.std.specs.List.{list_all};
ghost use Rattle.rg_base.specs.Pieces.{is_digit};
ghost use Rattle.rg_base.specs.Tokens.{value_of};

use rg_base::GREATEST_NUMBER;

/// The value of digits, where it is within the limit.
pub(crate) fn value(digits: &[u8]) -> Option<u64>
    requires { list_all is_digit digits.now ≡ true }
    ensures value { IfSome result (λ v. v ≡ value_of digits.now) }
    ensures within { IfSome result (λ v. v ≤ GREATEST_NUMBER) }
    ensures past { IfNone result (GREATEST_NUMBER < value_of digits.now) }
{
    let mut value: u64 = 0;
    for b in digits {
        let digit = u64::from(*b - b'0');
        if value > (GREATEST_NUMBER - digit) / 10 {
            return None;
        }
        value = value * 10 + digit;
    }
    Some(value)
}
