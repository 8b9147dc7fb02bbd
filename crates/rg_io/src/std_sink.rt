//! The trusted edge to standard output and standard error (docs/architecture.md).

ghost use Rattle.std.specs.Prelude.{◌≡◌, ◌≤◌, ◌<◌, length, take, IfOk, OnOk, OnErr};
ghost use Rattle.rg_io.specs.Content.{Rose, Appends, one_more};
ghost use Rattle.rg_io.specs.Untold.{untold_bytes};

use crate::calls::count_fault;
use crate::failed::Failed;
use crate::sink::Sink;
use std::io::Write;
use std::marker::Model;

/// A writer of the system, such as standard output. It tells nothing of its content; contracts see
/// the count of faults.
#[derive(Drop)]
pub struct StdSink<W: Write> {
    system: W,
    faults: u64,
}

impl<W: Write> Model for StdSink<W> {
    ghost use Rattle.std.specs.Prelude.{ℕ};

    ghost Value = { ℕ };

    ghost view = { λ s. s.faults };
}

impl<W: Write> StdSink<W> {
    /// A sink that hands its bytes to the writer at once.
    pub fn new(system: W) -> StdSink<W>
        ensures { result ≡ 0 }
    {
        StdSink { system, faults: 0 }
    }
}

impl<W: Write> Sink for StdSink<W> {
    ghost faults = { λ s. s };

    ghost taken = { untold_bytes };

    fn write(&mut self, piece: &[u8]) -> Result<usize, Failed>
        requires { 0 < length piece.now }
        ensures some { IfOk result (λ n. (0 < n) × (n ≤ length piece.now)) }
        ensures took { IfOk result (λ n.
            Appends (untold_bytes self.old) (untold_bytes self.new) (take n piece.now)) }
        ensures failed { OnErr result (Rose self.old self.new) }
        ensures kept { OnErr result (untold_bytes self.new ≡ untold_bytes self.old) }
        ensures never_falls { self.old ≤ self.new }

        ensures same { OnOk result (self.new ≡ self.old) }
        ensures counted { OnErr result (self.new ≡ one_more self.old) }
    {
        match self.system.write(piece) {
            Ok(n) => {
                if n > 0 {
                    return Ok(n);
                }
            }
            Err(_) => {}
        }
        Err(count_fault(&mut self.faults))
    }
}
