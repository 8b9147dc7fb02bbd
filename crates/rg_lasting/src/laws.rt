//! The law that a behaviour's object stays held, as the contract of a function that does nothing
//! (docs/architecture.md, "How a behaviour begins").

ghost use Rattle.rg_lasting.specs.Lasting.{FirstLasts, FirstLastsAlong};

use rg_first::first_stays;

/// A step of a behaviour leaves its object held, in region 0, which is still an arena.
pub fn first_lasts()
    ensures { FirstLasts }
{
    first_stays();
}

/// So do the steps that `leap` makes at once.
pub fn first_lasts_along()
    ensures { FirstLastsAlong }
{
    first_stays();
}
