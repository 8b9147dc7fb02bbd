//! What a pacer keeps of its asks (docs/architecture.md, "Pacers").

ghost use Rattle.std.specs.Prelude.{◌≡◌};
ghost use Rattle.rg_pace.specs.Asked.{one_more};

use rg_base::Census;
use std::marker::Model;

/// One more; the greatest number stays.
fn one_more(n: u64) -> u64
    ensures { result ≡ one_more n }
{
    if n < u64::MAX { n + 1 } else { n }
}

/// How often a pacer was asked and said yes, what it was told last, and what it was tuned to: all
/// that it tells of itself. A pacer of one's own keeps one, tunes it where it is tuned, and hands
/// it each census with the answer that it gives.
#[derive(Drop)]
pub struct Tally {
    asks: u64,
    yeses: u64,
    told: Census,
    tuned: u64,
}

impl Model for Tally {
    ghost use Rattle.rg_pace.specs.Asked.{Asked};

    ghost Value = { Asked };

    ghost view = { λ t. record { asks = t.asks; yeses = t.yeses; told = t.told; tuned = t.tuned } };
}

impl Tally {
    ghost use Rattle.rg_pace.specs.Asked.{never_asked, with_tune, with_ask};

    /// It was never asked.
    pub fn new() -> Tally
        ensures { result ≡ never_asked }
    {
        Tally {
            asks: 0,
            yeses: 0,
            told: Census { held: 0, since: 0 },
            tuned: 0,
        }
    }

    /// How often it was asked; the greatest number stays.
    pub fn asks(&self) -> u64
        ensures { result ≡ self.now.asks }
    {
        self.asks
    }

    /// How often it said yes; the greatest number stays.
    pub fn yeses(&self) -> u64
        ensures { result ≡ self.now.yeses }
    {
        self.yeses
    }

    /// What it was told last.
    pub fn told(&self) -> Census
        ensures { result ≡ self.now.told }
    {
        self.told
    }

    /// The number that it was tuned to.
    pub fn tuned(&self) -> u64
        ensures { result ≡ self.now.tuned }
    {
        self.tuned
    }

    /// It was tuned.
    pub fn tune(&mut self, every: u64)
        ensures { self.new ≡ with_tune self.old every }
    {
        self.tuned = every;
    }

    /// It was asked, and answered so.
    pub fn ask(&mut self, census: Census, answer: bool)
        ensures { self.new ≡ with_ask self.old census answer }
    {
        self.asks = one_more(self.asks);
        if answer {
            self.yeses = one_more(self.yeses);
        }
        self.told = census;
    }
}
