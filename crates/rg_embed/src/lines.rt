//! A sink of one's own (docs/embedding.md, "A sink of one's own").

ghost use Rattle.std.specs.Prelude.{◌≡◌, ◌≤◌, ◌<◌, length, take, IfOk, OnOk, OnErr};
ghost use Rattle.rg_io.specs.Content.{Rose, Appends};
ghost use Rattle.rg_io.specs.Untold.{untold_bytes};

use rg_io::{Failed, Sink, StdSink};
use std::io::Write;
use std::marker::Model;

/// Hands its bytes to a writer of the system, and counts the lines. Contracts see the count of the
/// writer's faults.
#[derive(Drop)]
pub struct Lines<W: Write> {
    system: StdSink<W>,
    lines: u64,
}

impl<W: Write> Model for Lines<W> {
    ghost use Rattle.std.specs.Prelude.{ℕ};

    ghost Value = { ℕ };

    ghost view = { λ s. s.system };
}

impl<W: Write> Lines<W> {
    /// A sink that has taken nothing.
    pub fn new(system: W) -> Lines<W>
        ensures { result ≡ 0 }
    {
        Lines {
            system: StdSink::new(system),
            lines: 0,
        }
    }

    /// How many lines have ended.
    pub fn lines(&self) -> u64 {
        self.lines
    }
}

/// How many lines end in a piece.
fn ends(piece: &[u8]) -> u64 {
    let mut many: u64 = 0;
    for byte in piece {
        if *byte == b'\n' {
            many = many.saturating_add(1);
        }
    }
    many
}

impl<W: Write> Sink for Lines<W> {
    ghost faults = { λ s. s };

    ghost taken = { untold_bytes };

    fn write(&mut self, piece: &[u8]) -> Result<usize, Failed>
        requires { 0 < length piece.now }
        ensures some { IfOk result (λ n. (0 < n) × (n ≤ length piece.now)) }
        ensures took { IfOk result (λ n.
            Appends (untold_bytes self.old) (untold_bytes self.new) (take n piece.now)) }
        ensures failed { OnErr result (Rose self.old self.new) }
        ensures kept { OnErr result (untold_bytes self.new ≡ untold_bytes self.old) }
        ensures never_falls { self.old ≤ self.new }
    {
        let taken = self.system.write(piece)?;
        self.lines = self.lines.saturating_add(ends(&piece[..taken]));
        Ok(taken)
    }
}
