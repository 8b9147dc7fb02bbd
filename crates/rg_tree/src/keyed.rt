//! The hashes of names, which a key chooses (docs/language.md, "The tree").

use std::hash::{BuildHasher, DefaultHasher, Hasher};

/// Each hash begins with the bytes of a key. So names whose hashes agree under one key, as names
/// can be chosen to do, differ in them under another.
#[derive(Clone, Copy)]
pub struct Keyed {
    start: DefaultHasher,
}

impl Keyed {
    /// The hashes that this key chooses.
    pub fn new(key: u64) -> Keyed {
        let mut start = DefaultHasher::new();
        start.write_u64(key);
        Keyed { start }
    }
}

impl BuildHasher for Keyed {
    type Hasher = DefaultHasher;

    ghost build_hasher = { λ s. s.start };

    fn build_hasher(&self) -> DefaultHasher {
        self.start
    }
}
