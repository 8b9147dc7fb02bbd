//! A pacer that says yes each time that it was asked so often (docs/architecture.md, "Pacers").

ghost use Rattle.std.specs.Prelude.{◌≡◌, ◌<◌, ◌≤◌, ◌↔◌, IsTrue};
ghost use Rattle.rg_pace.specs.Asked.{never_asked, with_tune, with_ask};

use crate::pacer::Pacer;
use crate::tally::Tally;
use rg_base::Census;
use std::marker::Model;

/// Says yes where it is told that it was asked at least `every` times since it last did, and never
/// where `every` is 0. Contracts see its tally, whose `tuned` is `every`.
#[derive(Drop)]
pub struct EveryN {
    tally: Tally,
}

impl Model for EveryN {
    ghost use Rattle.rg_pace.specs.Asked.{Asked};

    ghost Value = { Asked };

    ghost view = { λ p. p.tally };
}

impl EveryN {
    /// It was never asked, and `every` is 0.
    pub fn new() -> EveryN
        ensures { result ≡ never_asked }
    {
        EveryN {
            tally: Tally::new(),
        }
    }
}

impl Pacer for EveryN {
    ghost tally = { λ p. p };

    fn tune(&mut self, every: u64)
        ensures { self.new ≡ with_tune self.old every }
    {
        self.tally.tune(every);
    }

    fn ask(&mut self, census: Census) -> bool
        ensures answer { IsTrue result ↔ (0 < self.old.tuned) × (self.old.tuned ≤ census.since) }
        ensures asked { self.new ≡ with_ask self.old census result }
    {
        let every = self.tally.tuned();
        let answer = every > 0 && census.since >= every;
        self.tally.ask(census, answer);
        answer
    }
}
