//! What a pacer is, and the two that a run takes (docs/architecture.md, "Pacers").

ghost use Rattle.std.specs.Prelude.{◌≡◌};
ghost use Rattle.rg_pace.specs.Asked.{Asked, with_ask, with_tune};

use rg_base::Census;

/// Says whether the active region is to be collected. It tells how often it was asked, how often
/// it said yes, what it was told last, and the number that it was tuned to: its tally.
pub trait Pacer: Drop {
    ghost tally: { Self → Asked };

    /// Sets the number of `--every`, and nothing else.
    fn tune(&mut self, every: u64)
        ensures { tally self.new ≡ with_tune (tally self.old) every };

    /// Asks whether the region of this census is to be collected. What is answered is free.
    fn ask(&mut self, census: Census) -> bool
        ensures { tally self.new ≡ with_ask (tally self.old) census result };
}

/// A pacer for regions of each manager that collects.
#[derive(Drop)]
pub struct Pacers {
    pub count: Box<dyn Pacer>,
    pub trace: Box<dyn Pacer>,
}
