//! Calls on an object in memory, of which some are to fail (docs/architecture.md).

ghost use Rattle.std.specs.Prelude.{◌≡◌, ◌↔◌, IsTrue, IsErr, OnOk, OnErr};
ghost use Rattle.rg_io.specs.Content.{one_more};

use crate::failed::Failed;
use rg_base::Memory;
use std::alloc::Global;
use std::marker::Model;

/// One more; the greatest number stays.
pub(crate) fn one_more(n: u64) -> u64
    ensures { result ≡ one_more n }
{
    if n < u64::MAX { n + 1 } else { n }
}

/// Counts a fault, and says that the call failed.
pub(crate) fn count_fault(faults: &mut u64) -> Failed
    ensures { faults.new ≡ one_more faults.old }
{
    *faults = one_more(*faults);
    Failed
}

/// How many calls were made, which are to fail, and how many failed. Calls are numbered from 1.
#[derive(Drop)]
pub(crate) struct Calls {
    made: u64,
    failing: Vec<u64>,
    faults: u64,
}

impl Model for Calls {
    ghost use Rattle.rg_io.specs.Calls.{CallCounts};

    ghost Value = { CallCounts };

    ghost view = { λ c. record { made = c.made; failing = c.failing.items; faults = c.faults } };
}

impl Calls {
    ghost use Rattle.rg_io.specs.Calls.{no_calls, with_failing, IsNextFailing};
    ghost use Rattle.rg_io.specs.Calls.{with_call, with_fault};

    /// None was made, and none is to fail.
    pub(crate) fn new(alloc: Global) -> Calls
        ensures { result ≡ no_calls }
    {
        Calls {
            made: 0,
            failing: Vec::new(alloc),
            faults: 0,
        }
    }

    /// Names a call that is to fail.
    pub(crate) fn fail_at(&mut self, call: u64) -> Result<(), Memory>
        ensures ok { OnOk result (self.new ≡ with_failing self.old call) }
        ensures err { OnErr result (self.new ≡ self.old) }
    {
        match self.failing.push(call) {
            Ok(()) => Ok(()),
            Err(_) => Err(Memory),
        }
    }

    /// Whether the next call was named.
    pub(crate) fn is_next_failing(&self) -> bool
        ensures { IsTrue result ↔ IsNextFailing self.now }
    {
        self.failing.contains(&one_more(self.made))
    }

    /// Counts the next call, and fails where it was named.
    pub(crate) fn count(&mut self) -> Result<(), Failed>
        ensures fails { IsErr result ↔ IsNextFailing self.old }
        ensures passed { OnOk result (self.new ≡ with_call self.old) }
        ensures refused { OnErr result (self.new ≡ with_fault self.old) }
    {
        if self.is_next_failing() {
            self.fail();
            return Err(Failed);
        }
        self.pass();
        Ok(())
    }

    /// Counts a call that went well.
    pub(crate) fn pass(&mut self)
        ensures { self.new ≡ with_call self.old }
    {
        self.made = one_more(self.made);
    }

    /// Counts a call that failed.
    pub(crate) fn fail(&mut self)
        ensures { self.new ≡ with_fault self.old }
    {
        self.made = one_more(self.made);
        self.faults = one_more(self.faults);
    }
}
