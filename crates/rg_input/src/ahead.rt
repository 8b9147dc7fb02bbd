//! What came from a source and was not looked at (docs/language.md, "Input numbers").

ghost use Rattle.std.specs.Prelude.{◌≡◌, ◌⊎◌, ◌<◌, ◌≤◌, true, false, [], length, drop, OnOk, OnErr};
ghost use Rattle.std.specs.Result.{is_err};
ghost use Rattle.rg_io.specs.Content.{Rose};
ghost use Rattle.rg_input.specs.Inner.Ahead.{Came, Refills};
ghost use Rattle.rg_input.specs.Numbers.{Follows};

use crate::refusal::InputFault;
use rg_io::Source;
use std::marker::Model;

/// The most bytes that a source is asked for at once.
const PIECE: usize = 4_096;

/// The bytes of a piece that were not looked at. The next piece is asked for only where none is
/// left and one is needed.
#[derive(Drop)]
pub(crate) struct Ahead {
    piece: [u8; PIECE],
    from: usize,
    left: usize,
    ended: bool,
}

impl Model for Ahead {
    ghost use Rattle.std.specs.Prelude.{◌+◌, ◌≤◌, take, drop};
    ghost use Rattle.rg_input.specs.Numbers.{Pending};
    ghost use Rattle.rg_input.specs.declared.ahead.TheConstants.{PIECE};

    ghost Value = { Pending };

    ghost view = { λ a. record { held = take a.left (drop a.from a.piece); ended = a.ended } };

    ghost invariant = { λ a. a.from + a.left ≤ PIECE };
}

impl Ahead {
    /// Nothing came.
    pub(crate) fn new() -> Ahead
        ensures { result ≡ record { held = []; ended = false } }
    {
        Ahead {
            piece: [0; PIECE],
            from: 0,
            left: 0,
            ended: false,
        }
    }

    /// Asks for the next piece where nothing is left of the last one.
    pub(crate) fn refill<S: Source>(&mut self, source: &mut S) -> Result<(), InputFault>
        requires { Follows self.old (S.left source.old) }
        ensures follows { Follows self.new (S.left source.new) }
        ensures came { Came (S.left source.old) (S.left source.new) self.old self.new }
        ensures filled { OnOk result ((0 < length self.new.held) ⊎ (self.new.ended ≡ true)) }
        ensures needed { OnErr result (self.old ≡ record { held = []; ended = false }) }
        ensures unasked { (self.old ≡ record { held = []; ended = false } → ⊥) →
            source.new ≡ source.old }
        ensures asks { Refills S.replies (is_err result)
            self.old self.new source.old source.new }
        ensures quiet { OnOk result (S.faults source.new ≡ S.faults source.old) }
        ensures fault { OnErr result (Rose (S.faults source.old) (S.faults source.new)) }
        ensures never_falls { S.faults source.old ≤ S.faults source.new }
    {
        if self.left > 0 {
            return Ok(());
        }
        if self.ended {
            return Ok(());
        }
        match source.read(&mut self.piece) {
            Ok(n) => {
                self.from = 0;
                self.left = n;
                self.ended = n == 0;
                Ok(())
            }
            Err(_) => Err(InputFault),
        }
    }

    /// The bytes that are left.
    pub(crate) fn bytes(&self) -> &[u8]
        ensures { result.now ≡ self.now.held }
    {
        &self.piece[self.from..self.from + self.left]
    }

    /// Takes the first bytes.
    pub(crate) fn skip(&mut self, n: usize)
        requires { n ≤ length self.old.held }
        ensures { self.new ≡ record { held = drop n self.old.held; ended = self.old.ended } }
    {
        self.from += n;
        self.left -= n;
    }
}
