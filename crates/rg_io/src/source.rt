//! Where bytes come from (docs/architecture.md).

ghost use Rattle.std.specs.Prelude.{◌≡◌, ℕ, ◌<◌, ◌≤◌, List, [], length, take, Option};
ghost use Rattle.std.specs.Prelude.{OnOk, OnErr, IfOk, IfSome};
ghost use Rattle.rg_io.specs.Content.{Rose, Gives, Reply, gave, failed};

use crate::failed::Failed;

/// A source of bytes. It has a count of faults, which never falls, and may tell which bytes it has
/// left. It says too which replies a read may have, and what it is behind each: so what asks it can
/// say how often it was asked.
pub trait Source {
    ghost faults: { Self → ℕ };

    ghost left: { Self → Option (List ℕ) };

    ghost replies: { Self → Reply → Self → Type 0 };

    /// Moves the first bytes that are left into the buffer and answers how many; 0 means that none
    /// is left.
    fn read(&mut self, buf: &mut [u8]) -> Result<usize, Failed>
        requires { 0 < length buf.old }
        ensures within { IfOk result (λ n. n ≤ length buf.new) }
        ensures gave { IfOk result (λ n. Gives (left self.old) (left self.new) (take n buf.new)) }
        ensures end { IfOk result (λ n. n ≡ 0 → IfSome (left self.old) (λ bytes. bytes ≡ [])) }
        ensures replied { IfOk result (λ n. replies self.old (gave (take n buf.new)) self.new) }
        ensures quiet { OnOk result (faults self.new ≡ faults self.old) }
        ensures refused { OnErr result (replies self.old failed self.new) }
        ensures failed { OnErr result (Rose (faults self.old) (faults self.new)) }
        ensures kept { OnErr result (left self.new ≡ left self.old) }
        ensures buffer_kept { OnErr result (buf.new ≡ buf.old) }
        ensures never_falls { faults self.old ≤ faults self.new };
}
