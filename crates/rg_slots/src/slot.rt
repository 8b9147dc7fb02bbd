//! What a cown has (docs/architecture.md, "Worlds").

ghost use Rattle.std.specs.Prelude.{◌≡◌};
ghost use Rattle.rg_slots.specs.Slots.{content_in, content_seen};

use rg_cown::Cargo;

/// What a cown has, to be looked at.
#[derive(Clone, Copy)]
pub enum Content<'a> {
    /// its content is in a running behaviour
    Away,
    /// there is none
    Empty,
    /// this content is at rest
    Held(&'a Cargo),
}

/// What a cown has.
#[derive(Drop)]
pub enum Slot {
    /// its content is in a running behaviour
    Away,
    /// there is none
    Empty,
    /// this content is at rest
    Held(Cargo),
}

impl Slot {
    /// The same, to be looked at.
    pub(crate) fn content(&self) -> Content<'_>
        ensures { content_seen result ≡ content_in self.now }
    {
        match self {
            Slot::Away => Content::Away,
            Slot::Empty => Content::Empty,
            Slot::Held(cargo) => Content::Held(cargo),
        }
    }
}
