//! A pacer that answers by a list (docs/architecture.md, "Pacers").

ghost use Rattle.std.specs.Prelude.{◌≡◌, ◌++◌, ◌∷◌, List.[], drop, OnOk, OnErr};
ghost use Rattle.rg_pace.specs.Asked.{never_asked, with_tune, with_ask};
ghost use Rattle.rg_pace.specs.Listing.{first_or_no};

use crate::pacer::Pacer;
use crate::tally::Tally;
use rg_base::{Census, Memory};
use std::alloc::Global;
use std::collections::VecDeque;
use std::marker::Model;

/// Gives the answers of a list, each once and in turn, and says no where none is left. What it was
/// tuned to changes no answer.
#[derive(Drop)]
pub struct Listed {
    tally: Tally,
    left: VecDeque<bool>,
}

impl Model for Listed {
    ghost use Rattle.rg_pace.specs.Listing.{Listing};

    ghost Value = { Listing };

    ghost view = { λ p. record { tally = p.tally; left = p.left.items } };
}

impl Listed {
    /// It was never asked, and its list is empty.
    pub fn new(alloc: Global) -> Listed
        ensures { result ≡ record { tally = never_asked; left = [] } }
    {
        Listed {
            tally: Tally::new(),
            left: VecDeque::new(alloc),
        }
    }

    /// Puts an answer at the end of the list.
    pub fn add(&mut self, answer: bool) -> Result<(), Memory>
        ensures ok { OnOk result (self.new ≡
            record self.old { left = self.old.left ++ answer ∷ [] }) }
        ensures err { OnErr result (self.new ≡ self.old) }
    {
        match self.left.push_back(answer) {
            Ok(()) => Ok(()),
            Err(_) => Err(Memory),
        }
    }
}

impl Pacer for Listed {
    ghost tally = { λ p. p.tally };

    fn tune(&mut self, every: u64)
        ensures { self.new ≡ record self.old { tally = with_tune self.old.tally every } }
    {
        self.tally.tune(every);
    }

    fn ask(&mut self, census: Census) -> bool
        ensures answer { result ≡ first_or_no self.old.left }
        ensures asked { self.new.tally ≡ with_ask self.old.tally census result }
        ensures left { self.new.left ≡ drop 1 self.old.left }
    {
        let answer = self.left.pop_front().unwrap_or(false);
        self.tally.ask(census, answer);
        answer
    }
}
