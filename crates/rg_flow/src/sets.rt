//! Sets of up to 256 numbers, a bit each (docs/language.md, "Judgements").

ghost use Rattle.std.specs.Prelude.{◌≡◌, ℕ, ◌<◌, ◌↔◌, true, false, ◌&&◌, not, IsTrue};
ghost use Rattle.rg_flow.specs.Sets.{has, SetsBit, IsWithin};

/// No numbers.
pub const NONE: [u64; 4] = [0; 4];

/// Whether a number is in a set.
pub fn contains(words: &[u64; 4], v: u32) -> bool
    requires { v < 256 }
    ensures { result ≡ has words.now v }
{
    words[(v / 64) as usize] >> (v % 64) & 1 == 1
}

/// Puts a number into a set.
pub fn put(words: &mut [u64; 4], v: u32)
    requires { v < 256 }
    ensures { SetsBit words.old words.new v true }
{
    let place = (v / 64) as usize;
    words[place] = words[place] | 1 << (v % 64);
}

/// Takes a number out of a set.
pub fn cut(words: &mut [u64; 4], v: u32)
    requires { v < 256 }
    ensures { SetsBit words.old words.new v false }
{
    let place = (v / 64) as usize;
    words[place] = words[place] & !(1 << (v % 64));
}

/// What is in both of two sets.
pub fn both(a: &[u64; 4], b: &[u64; 4]) -> [u64; 4]
    ensures { (v : ℕ) → has result v ≡ (has a.now v && has b.now v) }
{
    [a[0] & b[0], a[1] & b[1], a[2] & b[2], a[3] & b[3]]
}

/// What is in a set and not in another.
pub fn without(a: &[u64; 4], b: &[u64; 4]) -> [u64; 4]
    ensures { (v : ℕ) → has result v ≡ (has a.now v && not (has b.now v)) }
{
    [a[0] & !b[0], a[1] & !b[1], a[2] & !b[2], a[3] & !b[3]]
}

/// Whether a set lies in another.
pub fn within(a: &[u64; 4], b: &[u64; 4]) -> bool
    ensures { IsTrue result ↔ IsWithin a.now b.now }
{
    if a[0] | b[0] != b[0] {
        return false;
    }
    if a[1] | b[1] != b[1] {
        return false;
    }
    if a[2] | b[2] != b[2] {
        return false;
    }
    a[3] | b[3] == b[3]
}
