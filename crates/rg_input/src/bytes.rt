//! A list of bytes that lie in the value itself (docs/language.md, "Input numbers").

ghost use Rattle.std.specs.Prelude.{◌≡◌, ◌+◌, ◌<◌, ◌≤◌, ◌==◌, [], ◌∷◌, ◌++◌, length, take, drop};

use std::marker::Model;

/// At most `N` bytes. To forget them writes none of them.
#[derive(Drop)]
pub(crate) struct Bytes<const N: usize> {
    cells: [u8; N],
    len: usize,
}

impl<const N: usize> Model for Bytes<N> {
    ghost use Rattle.std.specs.Prelude.{◌≡◌, ◌≤◌, ℕ, List, length, take};

    ghost Value = { List ℕ };

    ghost view = { λ b. take b.len b.cells };

    ghost invariant = { λ b. (b.len ≤ N) × (length b.cells ≡ N) };
}

/// Copies bytes over those from a place on.
fn copy_at(to: &mut [u8], at: usize, from: &[u8])
    requires { at + length from.now ≤ length to.old }
    ensures { to.new ≡ take at to.old ++ from.now ++ drop (at + length from.now) to.old }
{
    to[at..at + from.len()].copy_from_slice(from);
}

impl<const N: usize> Bytes<N> {
    /// No bytes.
    pub(crate) fn new() -> Bytes<N>
        ensures { result ≡ [] }
    {
        Bytes {
            cells: [0; N],
            len: 0,
        }
    }

    /// How many bytes there are.
    pub(crate) fn len(&self) -> usize
        ensures value { result ≡ length self.now }
        ensures fits { result ≤ N }
    {
        self.len
    }

    /// Whether there is no byte.
    pub(crate) fn is_empty(&self) -> bool
        ensures { result ≡ (length self.now == 0) }
    {
        self.len == 0
    }

    /// The bytes.
    pub(crate) fn as_slice(&self) -> &[u8]
        ensures { result.now ≡ self.now }
    {
        &self.cells[..self.len]
    }

    /// Appends bytes. There must be room.
    pub(crate) fn append(&mut self, bytes: &[u8])
        requires { length self.old + length bytes.now ≤ N }
        ensures { self.new ≡ self.old ++ bytes.now }
    {
        copy_at(&mut self.cells, self.len, bytes);
        self.len += bytes.len();
    }

    /// Appends a byte. There must be room.
    pub(crate) fn push(&mut self, byte: u8)
        requires { length self.old < N }
        ensures { self.new ≡ self.old ++ byte ∷ [] }
    {
        self.cells[self.len] = byte;
        self.len += 1;
    }

    /// Forgets the bytes.
    pub(crate) fn clear(&mut self)
        ensures { self.new ≡ [] }
    {
        self.len = 0;
    }
}
