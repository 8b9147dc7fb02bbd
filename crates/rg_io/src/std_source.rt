//! The trusted edge to standard input (docs/architecture.md).

ghost use Rattle.std.specs.Prelude.{◌≡◌, ◌≤◌, ◌<◌, [], length, take, IfOk, IfSome, OnOk, OnErr};
ghost use Rattle.rg_io.specs.Content.{Rose, Gives, gave, failed, one_more};
ghost use Rattle.rg_io.specs.Untold.{untold_bytes, untold_replies};

use crate::calls::count_fault;
use crate::failed::Failed;
use crate::pieces::read_piece;
use crate::source::Source;
use std::io::Read;
use std::marker::Model;

/// A reader of the system, such as standard input. It tells nothing of its content; contracts see
/// the count of faults.
#[derive(Drop)]
pub struct StdSource<R: Read> {
    system: R,
    faults: u64,
}

impl<R: Read> Model for StdSource<R> {
    ghost use Rattle.std.specs.Prelude.{ℕ};

    ghost Value = { ℕ };

    ghost view = { λ s. s.faults };
}

impl<R: Read> StdSource<R> {
    /// A source that gives what the reader gives.
    pub fn new(system: R) -> StdSource<R>
        ensures { result ≡ 0 }
    {
        StdSource { system, faults: 0 }
    }
}

impl<R: Read> Source for StdSource<R> {
    ghost faults = { λ s. s };

    ghost left = { untold_bytes };

    ghost replies = { untold_replies };

    fn read(&mut self, buf: &mut [u8]) -> Result<usize, Failed>
        requires { 0 < length buf.old }
        ensures within { IfOk result (λ n. n ≤ length buf.new) }
        ensures gave { IfOk result (λ n.
            Gives (untold_bytes self.old) (untold_bytes self.new) (take n buf.new)) }
        ensures end { IfOk result (λ n. n ≡ 0 →
            IfSome (untold_bytes self.old) (λ bytes. bytes ≡ [])) }
        ensures replied { IfOk result (λ n.
            untold_replies self.old (gave (take n buf.new)) self.new) }
        ensures quiet { OnOk result (self.new ≡ self.old) }
        ensures refused { OnErr result (untold_replies self.old failed self.new) }
        ensures failed { OnErr result (Rose self.old self.new) }
        ensures kept { OnErr result (untold_bytes self.new ≡ untold_bytes self.old) }
        ensures buffer_kept { OnErr result (buf.new ≡ buf.old) }
        ensures never_falls { self.old ≤ self.new }

        ensures counted { OnErr result (self.new ≡ one_more self.old) }
    {
        match read_piece(&mut self.system, buf) {
            Ok(n) => Ok(n),
            Err(_) => Err(count_fault(&mut self.faults)),
        }
    }
}
