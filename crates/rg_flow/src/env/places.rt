//! Places by the names of variables (docs/language.md, "Judgements").

ghost use Rattle.std.specs.Prelude.{◌≡◌, ℕ, ◌<◌, ◌≤◌, Option, [], ◌∷◌, ◌++◌, length, if◌then◌else◌};
ghost use Rattle.std.specs.Prelude.{IfSome, OnOk, OnErr};
ghost use Rattle.std.specs.Map.{lookup};
ghost use Rattle.rg_flow.specs.Scope.{same_name};
ghost use Rattle.rg_flow.specs.Inner.Layout.{place_in, AreNoted};
ghost use Rattle.rg_flow.specs.declared.env.var.Var.{Var};

use super::var::Var;
use rg_base::Memory;
use std::alloc::Global;
use std::collections::HashMap;
use std::marker::Model;

/// A place for each of some names; contracts see the list of the names with their places.
#[derive(Drop)]
pub struct Places {
    map: HashMap<Option<u32>, u32>,
}

impl Model for Places {
    ghost use Rattle.std.specs.Prelude.{ℕ, List, Option};

    ghost Value = { List (Option ℕ × ℕ) };

    ghost view = { λ p. p.map.entries };
}

impl Places {
    /// No places.
    pub fn new(alloc: Global) -> Places
        ensures { result ≡ [] }
    {
        Places {
            map: HashMap::new(alloc),
        }
    }

    /// The place of a name.
    pub fn get(&self, name: Option<u32>) -> Option<u32>
        ensures { result ≡ lookup (same_name name) self.now }
    {
        self.map.get(&name).copied()
    }

    /// Puts a name at a place.
    pub fn note(&mut self, name: Option<u32>, place: u32) -> Result<(), Memory>
        ensures noted { OnOk result ((q : Option ℕ) → lookup (same_name q) self.new
            ≡ (if same_name name q then Some place else lookup (same_name q) self.old)) }
        ensures err { OnErr result (self.new ≡ self.old) }
    {
        let Ok(_) = self.map.insert(name, place) else {
            return Err(Memory);
        };
        Ok(())
    }
}

/// The place of the first variable of a name.
pub fn place_of(places: &Places, vars: &[Var], name: Option<u32>) -> Option<u32>
    requires { AreNoted places.now vars.now }
    ensures place { result ≡ place_in name vars.now }
    ensures within { IfSome result (λ k. k < length vars.now) }
{
    let place = places.get(name)?;
    let var = vars.get(place as usize)?;
    if var.name == name { Some(place) } else { None }
}

/// Notes the name of a variable that comes behind these, unless it is there already.
pub fn note_last(places: &mut Places, vars: &[Var], name: Option<u32>) -> Result<(), Memory>
    requires noted { AreNoted places.old vars.now }
    requires within { length vars.now ≤ 256 }
    ensures noted { OnOk result ((v : Var) → v.name ≡ name
        → AreNoted places.new (vars.now ++ v ∷ [])) }
    ensures still { AreNoted places.new vars.now }
    ensures err { OnErr result (places.new ≡ places.old) }
{
    match place_of(places, vars, name) {
        Some(_) => Ok(()),
        None => places.note(name, vars.len() as u32),
    }
}
