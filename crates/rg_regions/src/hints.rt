//! Hints where the region of a number lies (docs/architecture.md, "Regions").

ghost use Rattle.std.specs.Prelude.{◌≤◌, length};

// so many hints at most
const HINTS: u64 = 1_024;

// The place of a number's hint: numbers that are so far apart share one.
#[inline]
fn place_of(number: u64) -> usize
    ensures { result ≤ 1023 }
{
    (number % HINTS) as usize
}

/// The key that may be that of a number, where there is a hint.
#[inline]
pub fn hint(hints: &[usize], number: u64) -> Option<usize> {
    hints.get(place_of(number)).copied()
}

/// Keeps the key of a number as a hint, in the place of an older one; where there is no memory, none
/// is kept.
pub fn keep_hint(hints: &mut Vec<usize>, number: u64, key: usize)
    ensures { length hints.old.items ≤ 1024 → length hints.new.items ≤ 1024 }
{
    let place = place_of(number);
    if place < hints.len() {
        hints[place] = key;
        return;
    }
    if place > hints.len() {
        return;
    }
    let Ok(()) = hints.push(key) else {
        return;
    };
}
