//! The number of slots of a body (docs/language.md, "Instructions and lowering").

ghost use Rattle.std.specs.Prelude.{◌≡◌, ◌≤◌, ◌<◌, ◌^◌, length, drop, max};
ghost use Rattle.rg_code.specs.Lowering.{above, slots_of};
ghost use Rattle.rg_lower.specs.Inner.Emitted.{AreLow};

use rg_code::{CodeList, Op, above};

/// The number of slots of the body that begins at an address and is the last one.
pub fn slots_behind(code: &CodeList, from: usize, given: u32) -> u32
    requires from { from ≤ length code.now.ops }
    requires low { AreLow code.now.ops }
    ensures { result ≡ slots_of given (drop from code.now.ops) }
{
    let mut most = 0;
    let mut at = from;
    while at < code.len() {
        most = greater(most, least_above(code.get(at)));
        at += 1;
    }
    greater(most, given)
}

// The least number above the slots that an instruction names; the slot of `end` doesn't count.
fn least_above(op: Op) -> u32
    requires { above op < 2 ^ 32 }
    ensures { result ≡ above op }
{
    above(op) as u32
}

// The greater of two numbers.
fn greater(a: u32, b: u32) -> u32
    ensures { result ≡ max a b }
{
    if a < b {
        return b;
    }
    a
}
