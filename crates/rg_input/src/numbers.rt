//! The numbers of an input, one after another (docs/language.md, "Input numbers").

ghost use Rattle.std.specs.Prelude.{◌≡◌, ◌≢◌, ◌≤◌, false, [], OnOk, OnErr, IfErr};
ghost use Rattle.std.specs.Result.{is_err};
ghost use Rattle.rg_io.specs.Content.{Rose};
ghost use Rattle.rg_input.specs.Numbers.{Pending, Follows, OnInput, Looks, Answers};
ghost use Rattle.rg_input.specs.Numbers.{is_input, is_fault, IsSure, AsksFor, Refuses, Stays};

use crate::ahead::Ahead;
use crate::held::{Held, Verdict};
use crate::refusal::{InputFault, NumberRefusal};
use rg_io::Source;
use std::marker::Model;

/// The numbers of an input. It asks its source for up to 4,096 bytes at a time, and only where what
/// it has doesn't say what comes next; it keeps what it has read until a number is taken.
#[derive(Drop)]
pub struct Numbers {
    held: Held,
    ahead: Ahead,
}

impl Model for Numbers {
    ghost use Rattle.rg_input.specs.Inner.Held.{pending};
    ghost use Rattle.rg_input.specs.Numbers.{Pending};

    ghost Value = { Pending };

    ghost view = { λ n. pending n.held n.ahead };
}

impl Numbers {
    /// Nothing was read.
    pub fn new() -> Numbers
        ensures { result ≡ record { held = []; ended = false } }
    {
        Numbers {
            held: Held::new(),
            ahead: Ahead::new(),
        }
    }

    /// Whether a number, or what is none, comes next. It takes nothing.
    pub fn more<S: Source>(&mut self, source: &mut S) -> Result<bool, InputFault>
        requires { Follows self.old (S.left source.old) }
        ensures follows { Follows self.new (S.left source.new) }

        ensures looks { OnInput self.old self.new (S.left source.old) (S.left source.new)
            (Looks result) }
        ensures refused { (why : NumberRefusal) → Refuses self.old why →
            (result ≡ Ok (is_input why)) × (self.new ≡ self.old) }
        ensures unasked { IsSure self.old → source.new ≡ source.old }
        ensures asks { AsksFor S.replies (is_err result) self.old self.new source.old source.new }

        ensures quiet { OnOk result (S.faults source.new ≡ S.faults source.old) }
        ensures fault { OnErr result (Rose (S.faults source.old) (S.faults source.new)) }
        ensures never_falls { S.faults source.old ≤ S.faults source.new }
    {
        self.held.look_more(&mut self.ahead, source)
    }

    /// Takes the next number. A refusal takes nothing.
    pub fn next<S: Source>(&mut self, source: &mut S) -> Result<i64, NumberRefusal>
        requires { Follows self.old (S.left source.old) }
        ensures follows { Follows self.new (S.left source.new) }

        ensures answers { OnInput self.old self.new (S.left source.old) (S.left source.new)
            (Answers result) }
        ensures stays { IfErr result (Stays self.new) }
        ensures refused { (why : NumberRefusal) → Refuses self.old why →
            (result ≡ Err why) × (self.new ≡ self.old) }
        ensures unasked { IsSure self.old → source.new ≡ source.old }
        ensures asks { (n : Pending) ×
            AsksFor S.replies (is_fault result) self.old n source.old source.new }

        ensures quiet { result ≢ Err NumberRefusal.InputFault →
            S.faults source.new ≡ S.faults source.old }
        ensures fault { result ≡ Err NumberRefusal.InputFault →
            Rose (S.faults source.old) (S.faults source.new) }
        ensures never_falls { S.faults source.old ≤ S.faults source.new }
    {
        match self.held.look(&mut self.ahead, source) {
            Ok(Verdict::Number(z)) => {
                self.held.take_token();
                Ok(z)
            }
            Ok(Verdict::Malformed) => Err(NumberRefusal::Input),
            Ok(Verdict::End) => Err(NumberRefusal::End),
            Err(InputFault) => Err(NumberRefusal::InputFault),
        }
    }
}
