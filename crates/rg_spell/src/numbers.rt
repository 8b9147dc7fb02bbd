//! The numbers of capabilities, managers and truth values (docs/architecture.md, "Modules").

ghost use Rattle.std.specs.Prelude.{◌≡◌};
ghost use Rattle.rg_spell.specs.Spelling.{cap_number, manager_number, bool_number};
ghost use Rattle.rg_spell.specs.Reading as reading;

use rg_base::{Cap, Manager};

/// The number of a capability.
pub(crate) fn cap_number(cap: Cap) -> u8
    ensures { result ≡ cap_number cap }
{
    match cap {
        Cap::Mut => 2,
        Cap::Tmp => 3,
        Cap::Paused => 4,
        Cap::Imm => 5,
        Cap::Iso => 6,
    }
}

/// The capability of a number.
pub(crate) fn cap_of(n: u8) -> Option<Cap>
    ensures { result ≡ reading.cap_of n }
{
    match n {
        2 => Some(Cap::Mut),
        3 => Some(Cap::Tmp),
        4 => Some(Cap::Paused),
        5 => Some(Cap::Imm),
        6 => Some(Cap::Iso),
        _ => None,
    }
}

/// The number of a manager.
pub(crate) fn manager_number(manager: Manager) -> u8
    ensures { result ≡ manager_number manager }
{
    match manager {
        Manager::Arena => 0,
        Manager::Count => 1,
        Manager::Trace => 2,
    }
}

/// The manager of a number.
pub(crate) fn manager_of(n: u8) -> Option<Manager>
    ensures { result ≡ reading.manager_of n }
{
    match n {
        0 => Some(Manager::Arena),
        1 => Some(Manager::Count),
        2 => Some(Manager::Trace),
        _ => None,
    }
}

/// The number of a truth value.
pub fn bool_number(b: bool) -> u8
    ensures { result ≡ bool_number b }
{
    if b { 1 } else { 0 }
}

/// The truth value of a number.
pub(crate) fn bool_of(n: u8) -> Option<bool>
    ensures { result ≡ reading.bool_of n }
{
    match n {
        0 => Some(false),
        1 => Some(true),
        _ => None,
    }
}
