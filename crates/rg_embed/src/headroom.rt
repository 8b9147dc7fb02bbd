//! A pacer of one's own (docs/embedding.md, "A pacer of one's own"): a region may grow by a half over
//! what its last collection left.

ghost use Rattle.std.specs.Prelude.{◌≡◌};
ghost use Rattle.rg_pace.specs.Asked.{never_asked};

use rg_base::Census;
use rg_pace::{Pacer, Tally};
use std::marker::Model;

/// The number of cells at which the pacer says yes first, and below which it never does.
const LEAST: u64 = 16;

/// Says yes where the region has as many cells as its limit. The first ask behind a yes sees what
/// the collection left; half as much again is the next limit.
#[derive(Drop)]
pub struct Headroom {
    tally: Tally,
    limit: u64,
    is_behind_yes: bool,
}

impl Model for Headroom {
    ghost use Rattle.rg_pace.specs.Asked.{Asked};

    ghost Value = { Asked };

    ghost view = { λ p. p.tally };
}

impl Headroom {
    /// It was never asked.
    pub fn new() -> Headroom
        ensures { result ≡ never_asked }
    {
        Headroom {
            tally: Tally::new(),
            limit: LEAST,
            is_behind_yes: false,
        }
    }

    /// How often it was asked, how often it said yes, and what it was tuned to.
    pub fn tally(&self) -> &Tally
        ensures { result.now ≡ self.now }
    {
        &self.tally
    }
}

impl Pacer for Headroom {
    ghost tally = { λ p. p };

    fn tune(&mut self, every: u64) {
        self.tally.tune(every);
    }

    fn ask(&mut self, census: Census) -> bool {
        if self.is_behind_yes {
            self.limit = census.held.saturating_add(census.held / 2).max(LEAST);
        }
        let answer = census.held >= self.limit;
        self.is_behind_yes = answer;
        self.tally.ask(census, answer);
        answer
    }
}
