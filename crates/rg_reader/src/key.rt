//! The key of a program's table of names (docs/language.md, "The tree").

use std::hash::{DefaultHasher, Hasher};

/// A digest of all bytes of a source, SipHash-1-3: whoever chooses other names changes it. No
/// answer depends on it, so no clause says which it is.
pub(crate) fn key_of(source: &[u8]) -> u64 {
    let mut hasher = DefaultHasher::new();
    hasher.write(source);
    hasher.finish()
}
