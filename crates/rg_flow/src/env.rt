//! The visible variables (docs/language.md, "Judgements").

mod found;
mod places;
mod saved;
mod states;
mod var;

ghost use Rattle.std.specs.Prelude.{◌≡◌, ℕ, ◌==◌, ◌<◌, ◌≤◌, ◌↔◌, if◌then◌else◌, IsTrue, length};
ghost use Rattle.std.specs.Prelude.{option_map, IfOk, OnOk, OnErr, IfSome};
ghost use Rattle.rg_base.specs.declared.limits.TheConstants.{BODY_NAMES};
ghost use Rattle.rg_tree.specs.Rows.Tables.{Tables, name_at};
ghost use Rattle.rg_tree.specs.Rows.RowsExist.{IsNameIn};
ghost use Rattle.rg_tree.specs.Rows.RowTrees.{variable_of};
ghost use Rattle.rg_rules.specs.Capabilities as rules;
ghost use Rattle.rg_rules.specs.Environment.{with_variable, gone};
ghost use Rattle.rg_rules.specs.Environment as env;
ghost use Rattle.rg_flow.specs.Flows.{state_of};
ghost use Rattle.rg_flow.specs.Scope.{no_variables, pushed, marked, entered, closed_at};
ghost use Rattle.rg_flow.specs.Scope.{env_of};
ghost use Rattle.rg_flow.specs.States.{readiness_of, slot_of, FoundAs, FoundInTree};
ghost use Rattle.rg_flow.specs.States.{IsReadable, IsSaved, restated, joined_with};
ghost use Rattle.rg_flow.specs.States.{CoversStates};
ghost use Rattle.rg_flow.specs.Inner.Layout.{with_slot, ready_slot};

use crate::flow::Flow;
pub use found::Found;
use found::found_at;
use places::{Places, note_last, place_of};
use rg_base::{Code, Memory, Ty};
use rg_rules::pause;
pub use saved::Saved;
pub use states::State;
use states::{forget, set, set_named};
use std::alloc::Global;
use std::marker::Model;
use var::Var;

/// The visible variables in the order in which they were added, with the state of each.
#[derive(Drop)]
pub struct Env {
    depth: u32,
    vars: Vec<Var>,
    // the place of each visible variable by its name, and of some that were visible
    places: Places,
    // a place at which there is no variable is gone
    flow: Flow,
}

impl Model for Env {
    ghost use Rattle.rg_flow.specs.Scope.{Scope};
    ghost use Rattle.rg_flow.specs.Inner.Layout.{scope_of, IsKept};

    ghost Value = { Scope };

    ghost view = { λ e. scope_of e.depth e.vars.items e.flow };

    ghost invariant = { λ e. IsKept e.depth e.vars.items e.places e.flow };
}

impl Env {
    /// No variables, at depth 0.
    pub fn new(alloc: Global) -> Env
        ensures { result ≡ no_variables }
    {
        Env {
            depth: 0,
            vars: Vec::new(alloc),
            places: Places::new(alloc),
            flow: Flow::new(),
        }
    }

    /// The variables with one more, which is ready, at the current depth. The name None is `self`.
    pub fn push(self, name: Option<u32>, ty: Ty, assignable: bool) -> Result<Env, Memory>
        requires { length self.slots < BODY_NAMES }
        ensures scope { IfOk result (λ out. out ≡ pushed self name ty assignable) }
        ensures tree { (t : Tables) → IfOk result (λ out.
            env_of t out
            ≡ with_variable (env_of t self) (option_map (name_at t) name) ty assignable) }
    {
        let mut env = self;
        env.add(name, ty, assignable)?;
        Ok(env)
    }

    /// One more variable, which is ready, at the current depth.
    pub fn add(&mut self, name: Option<u32>, ty: Ty, assignable: bool) -> Result<(), Memory>
        requires { length self.old.slots < BODY_NAMES }
        ensures scope { OnOk result (self.new ≡ pushed self.old name ty assignable) }
        ensures err { OnErr result (self.new ≡ self.old) }
    {
        let depth = self.depth;
        self.append(Var {
            name,
            ty,
            depth,
            assignable,
        })
    }

    /// One depth deeper, with one more variable, which is ready and may be assigned.
    pub fn enter(&mut self, name: Option<u32>, ty: Ty) -> Result<(), Memory>
        requires { length self.old.slots < BODY_NAMES }
        ensures scope { OnOk result (self.new ≡ entered self.old name ty) }
        ensures err { OnErr result (self.new ≡ self.old) }
    {
        let depth = self.depth + 1;
        self.append(Var {
            name,
            ty,
            depth,
            assignable: true,
        })?;
        self.depth = depth;
        Ok(())
    }

    // One more variable, which is ready.
    fn append(&mut self, var: Var) -> Result<(), Memory>
        requires { length self.old.slots < BODY_NAMES }
        ensures ok { OnOk result (self.new ≡ with_slot self.old (ready_slot var)) }
        ensures err { OnErr result (self.new ≡ self.old) }
    {
        let place = self.vars.len() as u32;
        note_last(&mut self.places, &self.vars, var.name)?;
        let Ok(()) = self.vars.push(var) else {
            return Err(Memory);
        };
        set(&mut self.flow, place, State::Ready);
        Ok(())
    }

    /// The first variable of a name, or E20 where none is visible.
    pub fn find(&self, name: Option<u32>) -> Result<Found, Code>
        ensures slot { FoundAs (slot_of name self.now.slots) result }
        ensures tree { (t : Tables) → IsReadable t self.now → IfSome name (IsNameIn t)
            → FoundInTree t name self.now result }
    {
        let vars = self.vars.as_slice();
        match place_of(&self.places, vars, name) {
            Some(place) => Ok(found_at(vars, &self.flow, place)),
            None => Err(Code::Unknown),
        }
    }

    /// Whether a variable was added at the current depth.
    pub fn is_at_depth(&self, found: &Found) -> bool
        ensures { result ≡ (found.now.depth == self.now.depth) }
    {
        found.depth == self.depth
    }

    /// The type as which a variable is seen.
    pub fn seen(&self, found: &Found) -> Ty
        ensures { result ≡
            (if found.now.depth == self.now.depth then found.now.ty else rules.pause found.now.ty) }
    {
        if found.depth == self.depth {
            found.ty
        } else {
            pause(found.ty)
        }
    }

    /// The variables with those of a name in another state.
    pub fn mark(&mut self, name: Option<u32>, now: State)
        ensures marked { self.new ≡ marked name (readiness_of now) self.old }
        ensures within { (t : Tables) → IsReadable t self.old → IsReadable t self.new }
        ensures tree { (t : Tables) → IsReadable t self.old → IfSome name (IsNameIn t)
            → env_of t self.new
            ≡ env.marked (variable_of t name) (readiness_of now) (env_of t self.old) }
    {
        set_named(&mut self.flow, &self.vars, name, now);
    }

    /// The depth, the number of variables, and their states.
    pub fn save(&self) -> Saved
        ensures { IsSaved result self.now }
    {
        Saved {
            depth: self.depth,
            len: self.vars.as_slice().len() as u32,
            flow: self.flow,
        }
    }

    /// The first variables, so many, at that depth.
    pub fn close(&mut self, depth: u32, len: u32)
        requires ordered { depth ≤ len }
        requires within { len ≤ length self.old.slots }
        ensures { self.new ≡ closed_at depth len self.old }
    {
        let end = self.vars.as_slice().len() as u32;
        forget(&mut self.flow, len, end);
        self.vars.truncate(len as usize);
        self.depth = depth;
    }

    /// The same variables in other states.
    pub fn restore(&mut self, flow: Flow)
        requires { (k : ℕ) → length self.old.slots ≤ k → state_of flow k ≡ gone }
        ensures { self.new ≡ restated flow self.old }
    {
        self.flow = flow;
    }

    /// The variables after one of two blocks, of which the other has that flow.
    pub fn join(&mut self, flow: Flow)
        ensures { self.new ≡ joined_with flow self.old }
    {
        let joined = flow.join(self.flow);
        self.flow = joined;
    }

    /// Whether each variable that is ready in that flow is ready here.
    pub fn covers(&self, head: &Flow) -> bool
        ensures { IsTrue result ↔ CoversStates head.now self.now.slots }
    {
        self.flow.covers(head)
    }
}
