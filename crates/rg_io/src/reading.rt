//! Files in memory, one of which is read (docs/architecture.md).

ghost use Rattle.std.specs.Prelude.{◌≡◌, ◌++◌, ◌∷◌, ◌↔◌, [], min, length, take, drop, IsTrue};
ghost use Rattle.std.specs.Prelude.{IsSome, OnOk, OnErr, unwrap_or};
ghost use Rattle.std.specs.Bool.{OnTrue, OnFalse};
ghost use Rattle.rg_io.specs.Files.{file_bytes};

use crate::pieces::{bytes_from, copy_first};
use crate::shelf::Shelf;
use rg_base::Memory;
use std::alloc::Global;
use std::marker::Model;

/// A place in a file: the number of the file, and how many of its bytes were read.
#[derive(Clone, Copy)]
pub(crate) struct Place {
    file: usize,
    at: usize,
}

/// Files in memory and the place in the one that was begun. Contracts see what files tell.
#[derive(Drop)]
pub(crate) struct Reading {
    shelf: Shelf,
    place: Option<Place>,
}

impl Model for Reading {
    ghost use Rattle.std.specs.Prelude.{reverse};
    ghost use Rattle.rg_io.specs.Files.{Told};

    ghost Value = { Told };

    ghost use Rattle.rg_io.specs.Inner.Shelf.{unread, IsPlace};

    ghost view = { λ r. record { files = reverse r.shelf; rest = unread r.shelf r.place } };

    ghost invariant = { λ r. IsPlace r.shelf r.place };
}

impl Reading {
    /// No files.
    pub(crate) fn new(alloc: Global) -> Reading
        ensures { result ≡ record { files = []; rest = [] } }
    {
        Reading {
            shelf: Shelf::new(alloc),
            place: None,
        }
    }

    /// Adds a file in front of all others.
    pub(crate) fn add(&mut self, name: &str, bytes: &[u8]) -> Result<(), Memory>
        ensures ok { OnOk result (self.new ≡
            record self.old { files = (name.now, bytes.now) ∷ self.old.files }) }
        ensures err { OnErr result (self.new ≡ self.old) }
    {
        self.shelf.add(name, bytes)?;
        Ok(())
    }

    /// Begins to read the first file of that name, and answers whether there is one.
    pub(crate) fn begin(&mut self, name: &str) -> bool
        ensures known { IsTrue result ↔ IsSome (file_bytes self.old.files name.now) }
        ensures begun { OnTrue result (self.new ≡
            record self.old { rest = unwrap_or (file_bytes self.old.files name.now) [] }) }
        ensures kept { OnFalse result (self.new ≡ self.old) }
    {
        match self.shelf.newest(name) {
            None => false,
            Some(file) => {
                self.place = Some(Place { file, at: 0 });
                true
            }
        }
    }

    /// Moves the first bytes of the unread rest into the buffer and answers how many.
    pub(crate) fn read(&mut self, buf: &mut [u8]) -> usize
        ensures count { result ≡ min (length buf.old) (length self.old.rest) }
        ensures moved { buf.new ≡ take result self.old.rest ++ drop result buf.old }
        ensures read { self.new ≡ record self.old { rest = drop result self.old.rest } }
    {
        let Some(place) = self.place else {
            return 0;
        };
        let left = bytes_from(self.shelf.bytes(place.file), place.at);
        let n = buf.len().min(left.len());
        copy_first(left, buf, n);
        self.place = Some(Place {
            file: place.file,
            at: place.at + n,
        });
        n
    }
}
