//! Files in memory (docs/architecture.md).

ghost use Rattle.std.specs.Prelude.{◌≡◌, ◌≤◌, ◌<◌, ◌++◌, ◌∷◌, ◌⊎◌, [], ◌↔◌, min, length, take};
ghost use Rattle.std.specs.Prelude.{drop, Some, None, IfOk, OnOk, OnErr, IsErr, unwrap_or};
ghost use Rattle.rg_io.specs.Calls.{no_calls, with_failing, IsNextFailing, with_call};
ghost use Rattle.rg_io.specs.Calls.{with_fault};
ghost use Rattle.rg_io.specs.Content.{Rose};
ghost use Rattle.rg_io.specs.Files.{file_bytes, Begins, Reads, NothingLeft};

use crate::begun::Begun;
use crate::calls::Calls;
use crate::failed::Failed;
use crate::files::Files;
use crate::reading::Reading;
use rg_base::Memory;
use std::alloc::Global;
use std::marker::Model;

/// Files in memory.
#[derive(Drop)]
pub struct MemFiles {
    reading: Reading,
    calls: Calls,
    begun: Begun,
}

impl Model for MemFiles {
    ghost use Rattle.rg_io.specs.MemFiles.{InMemoryFiles};

    ghost Value = { InMemoryFiles };

    ghost view = { λ s. record { told = s.reading; calls = s.calls; begun = s.begun.names } };
}

impl MemFiles {
    /// No files.
    pub fn new(alloc: Global) -> MemFiles
        ensures { result ≡ record {
          told = record { files = []; rest = [] };
          calls = no_calls;
          begun = [];
        } }
    {
        MemFiles {
            reading: Reading::new(alloc),
            calls: Calls::new(alloc),
            begun: Begun::new(),
        }
    }

    /// Adds a file. It replaces a file of that name.
    pub fn add(&mut self, name: &str, bytes: &[u8]) -> Result<(), Memory>
        ensures ok { OnOk result (self.new ≡ record self.old {
          told = record self.old.told { files = (name.now, bytes.now) ∷ self.old.told.files };
        }) }
        ensures err { OnErr result (self.new ≡ self.old) }
    {
        self.reading.add(name, bytes)
    }

    /// Names a call that fails; calls are numbered from 1, `begin` among them.
    pub fn fail_at(&mut self, call: u64) -> Result<(), Memory>
        ensures ok { OnOk result (self.new ≡
            record self.old { calls = with_failing self.old.calls call }) }
        ensures err { OnErr result (self.new ≡ self.old) }
    {
        self.calls.fail_at(call)
    }
}

impl Files for MemFiles {
    ghost faults = { λ s. s.calls.faults };

    ghost begun = { λ s. s.begun };

    ghost told = { λ s. Some s.told };

    fn begin(&mut self, name: &str) -> Result<(), Failed>
        ensures begun { OnOk result (Begins (Some self.old.told) name.now (Some self.new.told)) }
        ensures named { self.new.begun ≡ self.old.begun ++ name.now ∷ [] }
        ensures failed { OnErr result (Rose self.old.calls.faults self.new.calls.faults) }
        ensures kept { OnErr result (Some self.new.told ≡ Some self.old.told) }
        ensures never_falls { self.old.calls.faults ≤ self.new.calls.faults }

        ensures fails_where_named_or_unknown { IsErr result ↔ (IsNextFailing self.old.calls
            ⊎ (file_bytes self.old.told.files name.now ≡ None)) }
        ensures passed { OnOk result (self.new ≡ record {
          told = record self.old.told {
            rest = unwrap_or (file_bytes self.old.told.files name.now) [];
          };
          calls = with_call self.old.calls;
          begun = self.old.begun ++ name.now ∷ [];
        }) }
        ensures refused { OnErr result (self.new ≡ record self.old {
          calls = with_fault self.old.calls;
          begun = self.old.begun ++ name.now ∷ [];
        }) }
    {
        self.begun = self.begun.and(name.as_bytes());
        if self.calls.is_next_failing() || !self.reading.begin(name) {
            self.calls.fail();
            return Err(Failed);
        }
        self.calls.pass();
        Ok(())
    }

    fn read(&mut self, buf: &mut [u8]) -> Result<usize, Failed>
        requires { 0 < length buf.old }
        ensures within { IfOk result (λ n. n ≤ length buf.new) }
        ensures read { IfOk result (λ n.
            Reads (Some self.old.told) (Some self.new.told) (take n buf.new)) }
        ensures end { IfOk result (λ n. n ≡ 0 → NothingLeft (Some self.old.told)) }
        ensures begins_none { self.new.begun ≡ self.old.begun }
        ensures failed { OnErr result (Rose self.old.calls.faults self.new.calls.faults) }
        ensures kept { OnErr result (Some self.new.told ≡ Some self.old.told) }
        ensures buffer_kept { OnErr result (buf.new ≡ buf.old) }
        ensures never_falls { self.old.calls.faults ≤ self.new.calls.faults }

        ensures fails_where_named { IsErr result ↔ IsNextFailing self.old.calls }
        ensures count { IfOk result (λ n. n ≡ min (length buf.old) (length self.old.told.rest)) }
        ensures moved { IfOk result (λ n. buf.new ≡ take n self.old.told.rest ++ drop n buf.old) }
        ensures passed { IfOk result (λ n. self.new ≡ record {
          told = record self.old.told { rest = drop n self.old.told.rest };
          calls = with_call self.old.calls;
          begun = self.old.begun;
        }) }
        ensures refused { OnErr result (self.new ≡
            record self.old { calls = with_fault self.old.calls }) }
    {
        self.calls.count()?;
        Ok(self.reading.read(buf))
    }
}
