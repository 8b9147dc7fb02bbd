//! A source in memory (docs/architecture.md).

ghost use Rattle.std.specs.Prelude.{◌≡◌, ◌≤◌, ◌<◌, ◌++◌, [], ◌↔◌, min, length, take, drop, Some};
ghost use Rattle.std.specs.Prelude.{IfOk, OnOk, OnErr, IfSome, IsErr};
ghost use Rattle.rg_io.specs.Calls.{no_calls, with_failing, IsNextFailing, with_call};
ghost use Rattle.rg_io.specs.Calls.{with_fault};
ghost use Rattle.rg_io.specs.Content.{Rose, Gives, gave, failed};
ghost use Rattle.rg_io.specs.MemSource.{memory_replies};

use crate::calls::Calls;
use crate::failed::Failed;
use crate::pieces::{bytes_from, copy_first};
use crate::source::Source;
use rg_base::Memory;
use std::alloc::Global;
use std::marker::Model;

/// A source in memory: its bytes, how many of them were given, and the largest piece of one call.
#[derive(Drop)]
pub struct MemSource {
    bytes: Vec<u8>,
    given: usize,
    largest: usize,
    calls: Calls,
}

impl Model for MemSource {
    ghost use Rattle.std.specs.Prelude.{◌≤◌, ◌<◌, drop, vec_len};
    ghost use Rattle.rg_io.specs.MemSource.{InMemorySource};

    ghost Value = { InMemorySource };

    ghost view = { λ s. record {
      left = drop s.given s.bytes.items;
      largest = s.largest;
      calls = s.calls;
    } };

    ghost invariant = { λ s. (s.given ≤ vec_len s.bytes) × (0 < s.largest) };
}

impl MemSource {
    /// A source without bytes. One call gives all that it can.
    pub fn new(alloc: Global) -> MemSource
        ensures { result ≡ record { left = []; largest = usize.MAX; calls = no_calls } }
    {
        MemSource {
            bytes: Vec::new(alloc),
            given: 0,
            largest: usize::MAX,
            calls: Calls::new(alloc),
        }
    }

    /// Appends bytes.
    pub fn add(&mut self, bytes: &[u8]) -> Result<(), Memory>
        ensures ok { OnOk result (self.new ≡
            record self.old { left = self.old.left ++ bytes.now }) }
        ensures err { OnErr result (self.new ≡ self.old) }
    {
        match self.bytes.extend_from_slice(bytes) {
            Ok(()) => Ok(()),
            Err(_) => Err(Memory),
        }
    }

    /// Sets the largest piece of one call.
    pub fn piece(&mut self, most: usize)
        requires { 0 < most }
        ensures { self.new ≡ record self.old { largest = most } }
    {
        self.largest = most;
    }

    /// Names a call that fails; calls are numbered from 1.
    pub fn fail_at(&mut self, call: u64) -> Result<(), Memory>
        ensures ok { OnOk result (self.new ≡
            record self.old { calls = with_failing self.old.calls call }) }
        ensures err { OnErr result (self.new ≡ self.old) }
    {
        self.calls.fail_at(call)
    }
}

impl Source for MemSource {
    ghost faults = { λ s. s.calls.faults };

    ghost left = { λ s. Some s.left };

    ghost replies = { memory_replies };

    fn read(&mut self, buf: &mut [u8]) -> Result<usize, Failed>
        requires { 0 < length buf.old }
        ensures within { IfOk result (λ n. n ≤ length buf.new) }
        ensures gave { IfOk result (λ n.
            Gives (Some self.old.left) (Some self.new.left) (take n buf.new)) }
        ensures end { IfOk result (λ n. n ≡ 0 →
            IfSome (Some self.old.left) (λ bytes. bytes ≡ [])) }
        ensures replied { IfOk result (λ n.
            memory_replies self.old (gave (take n buf.new)) self.new) }
        ensures quiet { OnOk result (self.new.calls.faults ≡ self.old.calls.faults) }
        ensures refused { OnErr result (memory_replies self.old failed self.new) }
        ensures failed { OnErr result (Rose self.old.calls.faults self.new.calls.faults) }
        ensures kept { OnErr result (Some self.new.left ≡ Some self.old.left) }
        ensures buffer_kept { OnErr result (buf.new ≡ buf.old) }
        ensures never_falls { self.old.calls.faults ≤ self.new.calls.faults }

        ensures fails_where_named { IsErr result ↔ IsNextFailing self.old.calls }
        ensures count { IfOk result (λ n.
            n ≡ min (min (length buf.old) (length self.old.left)) self.old.largest) }
        ensures moved { IfOk result (λ n. buf.new ≡ take n self.old.left ++ drop n buf.old) }
        ensures passed { IfOk result (λ n. self.new ≡
            record self.old { left = drop n self.old.left; calls = with_call self.old.calls }) }
    {
        self.calls.count()?;
        let left = bytes_from(&self.bytes, self.given);
        let n = buf.len().min(left.len()).min(self.largest);
        copy_first(left, buf, n);
        self.given += n;
        Ok(n)
    }
}
