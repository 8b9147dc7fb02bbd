//! A sink in memory (docs/architecture.md).

ghost use Rattle.std.specs.Prelude.{◌≡◌, ◌≤◌, ◌<◌, ◌+◌, ◌-◌, ◌⊎◌, ◌++◌, [], ◌↔◌, min, length, take};
ghost use Rattle.std.specs.Prelude.{Some, IfOk, OnOk, OnErr, IsErr, vec_len, vec_capacity};
ghost use Rattle.rg_io.specs.Calls.{no_calls, with_failing, IsNextFailing, with_call};
ghost use Rattle.rg_io.specs.Calls.{with_fault};
ghost use Rattle.rg_io.specs.Content.{Rose, Appends};

use crate::calls::Calls;
use crate::failed::Failed;
use crate::sink::Sink;
use rg_base::Memory;
use std::alloc::Global;
use std::marker::Model;

/// A sink in memory: the bytes that it has taken, the room that is left (it is reserved in the list
/// of these bytes), and the largest piece of one call.
#[derive(Drop)]
pub struct MemSink {
    bytes: Vec<u8>,
    room: usize,
    largest: usize,
    calls: Calls,
}

impl Model for MemSink {
    ghost use Rattle.std.specs.Prelude.{◌+◌, ◌≤◌, ◌<◌, vec_len, vec_capacity};
    ghost use Rattle.rg_io.specs.MemSink.{InMemorySink};

    ghost Value = { InMemorySink };

    ghost view = { λ s. record {
      taken = s.bytes.items;
      room = s.room;
      largest = s.largest;
      calls = s.calls;
    } };

    ghost invariant = { λ s. (vec_len s.bytes + s.room ≤ vec_capacity s.bytes) × (0 < s.largest) };
}

impl MemSink {
    /// A sink that has taken nothing and has no room. One call takes all that it can.
    pub fn new(alloc: Global) -> MemSink
        ensures { result ≡ record { taken = []; room = 0; largest = usize.MAX; calls = no_calls } }
    {
        MemSink {
            bytes: Vec::new(alloc),
            room: 0,
            largest: usize::MAX,
            calls: Calls::new(alloc),
        }
    }

    /// Adds so many bytes to the room that is left.
    pub fn room(&mut self, more: usize) -> Result<(), Memory>
        ensures ok { OnOk result (self.new ≡ record self.old { room = self.old.room + more }) }
        ensures err { OnErr result (self.new ≡ self.old) }
    {
        let Some(room) = self.room.checked_add(more) else {
            return Err(Memory);
        };
        match self.bytes.reserve(room) {
            Ok(()) => {}
            Err(_) => return Err(Memory),
        }
        self.room = room;
        Ok(())
    }

    /// Sets the largest piece of one call.
    pub fn piece(&mut self, most: usize)
        requires { 0 < most }
        ensures { self.new ≡ record self.old { largest = most } }
    {
        self.largest = most;
    }

    /// Names a call that fails; calls are numbered from 1.
    pub fn fail_at(&mut self, call: u64) -> Result<(), Memory>
        ensures ok { OnOk result (self.new ≡
            record self.old { calls = with_failing self.old.calls call }) }
        ensures err { OnErr result (self.new ≡ self.old) }
    {
        self.calls.fail_at(call)
    }

    /// The bytes that it has taken.
    pub fn taken(&self) -> &[u8]
        ensures { result.now ≡ self.now.taken }
    {
        self.bytes.as_slice()
    }
}

// Puts the first n bytes at the end, where there is room for them.
fn put_first(bytes: &mut Vec<u8>, more: &[u8], n: usize)
    requires more_has { n ≤ length more.now }
    requires room { vec_len bytes.old + n ≤ vec_capacity bytes.old }
    ensures items { bytes.new.items ≡ bytes.old.items ++ take n more.now }
    ensures len { vec_len bytes.new ≡ vec_len bytes.old + n }
    ensures capacity { vec_capacity bytes.old ≤ vec_capacity bytes.new }
{
    bytes.extend_from_slice(&more[..n]).unwrap();
}

impl Sink for MemSink {
    ghost faults = { λ s. s.calls.faults };

    ghost taken = { λ s. Some s.taken };

    fn write(&mut self, piece: &[u8]) -> Result<usize, Failed>
        requires { 0 < length piece.now }
        ensures some { IfOk result (λ n. (0 < n) × (n ≤ length piece.now)) }
        ensures took { IfOk result (λ n.
            Appends (Some self.old.taken) (Some self.new.taken) (take n piece.now)) }
        ensures failed { OnErr result (Rose self.old.calls.faults self.new.calls.faults) }
        ensures kept { OnErr result (Some self.new.taken ≡ Some self.old.taken) }
        ensures never_falls { self.old.calls.faults ≤ self.new.calls.faults }

        ensures fails_where_named_or_full { IsErr result ↔
            (IsNextFailing self.old.calls ⊎ (self.old.room ≡ 0)) }
        ensures count { IfOk result (λ n.
            n ≡ min (min (length piece.now) self.old.room) self.old.largest) }
        ensures passed { IfOk result (λ n. self.new ≡ record self.old {
          taken = self.old.taken ++ take n piece.now;
          room = self.old.room - n;
          calls = with_call self.old.calls;
        }) }
        ensures refused { OnErr result (self.new ≡
            record self.old { calls = with_fault self.old.calls }) }
    {
        if self.calls.is_next_failing() || self.room == 0 {
            self.calls.fail();
            return Err(Failed);
        }
        self.calls.pass();
        let n = piece.len().min(self.room).min(self.largest);
        put_first(&mut self.bytes, piece, n);
        self.room -= n;
        Ok(n)
    }
}
