//! A pacer that says yes where a region has grown to twice its size (docs/architecture.md,
//! "Pacers").

ghost use Rattle.std.specs.Prelude.{◌≡◌, ◌≤◌, ◌↔◌, IsTrue, max, if◌then◌else◌};
ghost use Rattle.rg_pace.specs.Asked.{never_asked, with_tune, with_ask};
ghost use Rattle.rg_pace.specs.Limited.{doubled};

use crate::pacer::Pacer;
use crate::tally::Tally;
use rg_base::Census;
use std::marker::Model;

/// The limit of a pacer that was never tuned.
const FIRST_LIMIT: u64 = 64;

/// Says yes where the region has as many cells as its limit, which is then twice their number.
#[derive(Drop)]
pub struct Doubling {
    tally: Tally,
    limit: u64,
}

impl Model for Doubling {
    ghost use Rattle.rg_pace.specs.Limited.{Limited};

    ghost Value = { Limited };

    ghost view = { λ p. record { tally = p.tally; limit = p.limit } };
}

impl Doubling {
    /// It was never asked, and its limit is 64.
    pub fn new() -> Doubling
        ensures { result ≡ record { tally = never_asked; limit = 64 } }
    {
        Doubling {
            tally: Tally::new(),
            limit: FIRST_LIMIT,
        }
    }
}

impl Pacer for Doubling {
    ghost tally = { λ p. p.tally };

    fn tune(&mut self, every: u64)
        ensures { self.new ≡
            record { tally = with_tune self.old.tally every; limit = max every 1 } }
    {
        self.tally.tune(every);
        self.limit = every.max(1);
    }

    fn ask(&mut self, census: Census) -> bool
        ensures answer { IsTrue result ↔ (self.old.limit ≤ census.held) }
        ensures asked { self.new.tally ≡ with_ask self.old.tally census result }
        ensures limit { self.new.limit ≡
            (if result then doubled census.held else self.old.limit) }
    {
        let answer = census.held >= self.limit;
        if answer {
            self.limit = census.held.saturating_mul(2);
        }
        self.tally.ask(census, answer);
        answer
    }
}
