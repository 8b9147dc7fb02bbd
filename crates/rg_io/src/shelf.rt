//! Files as they lie in memory (docs/architecture.md).

ghost use Rattle.std.specs.Prelude.{◌≡◌, ◌<◌, ◌++◌, ◌∷◌, [], length, reverse, slice_get};
ghost use Rattle.std.specs.Prelude.{Some, None, IfSome, IfNone, OnOk, OnErr};
ghost use Rattle.rg_io.specs.Files.{file_bytes};
ghost use Rattle.rg_io.specs.Inner.Shelf.{bytes_of};

use rg_base::Memory;
use std::alloc::Global;
use std::marker::Model;

// A file: its name and its bytes.
#[derive(Drop)]
struct KeptFile {
    name: Vec<u8>,
    bytes: Vec<u8>,
}

/// Files by name, the oldest first. Contracts see the list of their names and bytes.
#[derive(Drop)]
pub(crate) struct Shelf {
    alloc: Global,
    files: Vec<KeptFile>,
}

impl Model for Shelf {
    ghost use Rattle.std.specs.Prelude.{map};
    ghost use Rattle.rg_io.specs.Files.{FileMap};

    ghost Value = { FileMap };

    ghost view = { λ s. map (λ f. (f.name.items, f.bytes.items)) s.files.items };
}

impl Shelf {
    /// No files.
    pub(crate) fn new(alloc: Global) -> Shelf
        ensures { result ≡ [] }
    {
        Shelf {
            alloc,
            files: Vec::new(alloc),
        }
    }

    /// Puts a file behind all others.
    pub(crate) fn add(&mut self, name: &str, bytes: &[u8]) -> Result<(), Memory>
        ensures ok { OnOk result (self.new ≡ self.old ++ (name.now, bytes.now) ∷ []) }
        ensures err { OnErr result (self.new ≡ self.old) }
    {
        let Ok(name) = Vec::from_slice(self.alloc, name.as_bytes()) else {
            return Err(Memory);
        };
        let Ok(bytes) = Vec::from_slice(self.alloc, bytes) else {
            return Err(Memory);
        };
        match self.files.push(KeptFile { name, bytes }) {
            Ok(()) => Ok(()),
            Err(_) => Err(Memory),
        }
    }

    /// The place of the newest file of that name.
    pub(crate) fn newest(&self, name: &str) -> Option<usize>
        ensures none { IfNone result (file_bytes (reverse self.now) name.now ≡ None) }
        ensures within { IfSome result (λ i. i < length self.now) }
        ensures found { IfSome result (λ i.
            file_bytes (reverse self.now) name.now ≡ Some (bytes_of (slice_get self.now i))) }
    {
        for i in (0..self.files.len()).rev() {
            if self.files[i].name.as_slice() == name.as_bytes() {
                return Some(i);
            }
        }
        None
    }

    /// The bytes of the file at a place.
    pub(crate) fn bytes(&self, i: usize) -> &[u8]
        requires { i < length self.now }
        ensures { result.now ≡ bytes_of (slice_get self.now i) }
    {
        self.files[i].bytes.as_slice()
    }
}
