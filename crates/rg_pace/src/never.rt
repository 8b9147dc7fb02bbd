//! A pacer that never says yes (docs/architecture.md, "Pacers").

ghost use Rattle.std.specs.Prelude.{◌≡◌, false};
ghost use Rattle.rg_pace.specs.Asked.{never_asked, with_tune, with_ask};

use crate::pacer::Pacer;
use crate::tally::Tally;
use rg_base::Census;
use std::marker::Model;

/// Never says yes. Contracts see its tally.
#[derive(Drop)]
pub struct Never {
    tally: Tally,
}

impl Model for Never {
    ghost use Rattle.rg_pace.specs.Asked.{Asked};

    ghost Value = { Asked };

    ghost view = { λ p. p.tally };
}

impl Never {
    /// It was never asked.
    pub fn new() -> Never
        ensures { result ≡ never_asked }
    {
        Never {
            tally: Tally::new(),
        }
    }
}

impl Pacer for Never {
    ghost tally = { λ p. p };

    fn tune(&mut self, every: u64)
        ensures { self.new ≡ with_tune self.old every }
    {
        self.tally.tune(every);
    }

    fn ask(&mut self, census: Census) -> bool
        ensures answer { result ≡ false }
        ensures asked { self.new ≡ with_ask self.old census false }
    {
        self.tally.ask(census, false);
        false
    }
}
