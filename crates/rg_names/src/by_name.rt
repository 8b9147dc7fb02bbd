//! Values by the number of a name, in the order in which they were put (docs/language.md,
//! "Headers").

ghost use Rattle.std.specs.Prelude.{◌≡◌, ◌-◌, ◌^◌, ◌<◌, [], ◌∷◌, ◌++◌, not, length, position};
ghost use Rattle.std.specs.Prelude.{nat_eq, option_map, slice_get, is_some, Some, None, IfSome};
ghost use Rattle.std.specs.Prelude.{IfErr, OnOk, OnErr};
ghost use Rattle.std.specs.Map.{lookup, keys_of};
ghost use Rattle.rg_base.specs.declared.fault.Code.TheVariants.{Duplicate};
ghost use Rattle.rg_base.specs.declared.fault.Stop.TheVariants as stop;
ghost use Rattle.rg_rules.specs.Answers.{test, at_line};
ghost use Rattle.rg_names.specs.Table.{values_of};
ghost use Rattle.rg_names.specs.Judged.{JudgedAs, IsFault};

use indexmap::IndexMap;
use rg_base::{Code, Fault, Stop};
use std::alloc::Global;
use std::marker::Model;

/// The most entries, so that each has a number.
const MOST_ENTRIES: usize = 4_294_967_295;

/// A value for each of some names; contracts see the list of the names' numbers with their values.
pub struct ByName<V> {
    map: IndexMap<u32, V>,
}

impl<V> Model for ByName<V> {
    ghost use Rattle.std.specs.Prelude.{ℕ, ◌<◌, ◌^◌, List, length};

    ghost Value = { List (ℕ × V) };

    ghost view = { λ b. b.map.entries };

    ghost invariant = { λ b. length b.map.entries < 2 ^ 32 };
}

/// Written out, so that no crate above proves how the entries are dropped.
impl<V: Drop> Drop for ByName<V> {
    fn drop(self) {
        let ByName { map: _ } = self;
    }
}

impl<V: Copy> ByName<V> {
    /// No names.
    pub fn new(alloc: Global) -> ByName<V>
        ensures { result ≡ [] }
    {
        ByName {
            map: IndexMap::new(alloc),
        }
    }

    /// The place of a name, if it is there.
    pub fn place(&self, name: u32) -> Option<u32>
        ensures place { result ≡ position (nat_eq name) (keys_of self.now) }
        ensures within { IfSome result (λ k. k < length self.now) }
    {
        match self.map.get_index_of(&name) {
            Some(k) => Some(k as u32),
            None => None,
        }
    }

    /// The value of a name, if it is there.
    pub fn get(&self, name: u32) -> Option<V>
        ensures { result ≡ lookup (nat_eq name) self.now }
    {
        self.map.get(&name).copied()
    }

    /// The place of a name with its value, if it is there.
    pub fn find(&self, name: u32) -> Option<(u32, V)>
        ensures place { option_map (λ p. p.0) result ≡ position (nat_eq name) (keys_of self.now) }
        ensures value { option_map (λ p. p.1) result ≡ lookup (nat_eq name) self.now }
    {
        match self.map.get_full(&name) {
            Some((k, _, value)) => Some((k as u32, *value)),
            None => None,
        }
    }

    /// The value at a place.
    pub fn at(&self, k: u32) -> V
        requires { k < length self.now }
        ensures { slice_get (values_of self.now) k ≡ Some result }
    {
        match self.map.get_index(k as usize) {
            Some((_, value)) => *value,
            None => unreachable!(),
        }
    }

    /// E21 at that line exactly where the name is there.
    pub fn fresh(&self, name: u32, line: u64) -> Result<(), Stop>
        ensures judged { JudgedAs
            (at_line line (test (not (is_some (lookup (nat_eq name) self.now))) Duplicate)) result }
        ensures only_fault { IfErr result IsFault }
    {
        match self.get(name) {
            Some(_) => Err(Stop::Fault(Fault {
                code: Code::Duplicate,
                line,
            })),
            None => Ok(()),
        }
    }

    /// Puts a new name last. Only memory can be short.
    pub fn push(&mut self, name: u32, value: V) -> Result<(), Stop>
        requires { lookup (nat_eq name) self.old ≡ None }
        ensures ok { OnOk result (self.new ≡ self.old ++ (name, value) ∷ []) }
        ensures counted { OnOk result (length self.old < 2 ^ 32 - 1) }
        ensures err { OnErr result (self.new ≡ self.old) }
        ensures memory { IfErr result (λ s. s ≡ stop.Memory) }
    {
        if self.map.len() >= MOST_ENTRIES {
            return Err(Stop::Memory);
        }
        let Ok(_) = self.map.insert(name, value) else {
            return Err(Stop::Memory);
        };
        Ok(())
    }
}
