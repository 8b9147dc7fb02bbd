//! What a field of a behaviour's object begins with (docs/architecture.md, "How a behaviour
//! begins").

use rg_base::Val;
use rg_cown::Cargo;

/// What a field of a behaviour's object begins with.
#[derive(Drop)]
pub enum Given {
    /// A value.
    Start(Val),
    /// The bridge of a closed region that has this content.
    Held(Cargo),
}
