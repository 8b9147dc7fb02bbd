//! The states of variables, put and read (docs/language.md, "Judgements").

ghost use Rattle.std.specs.Prelude.{◌≡◌, ℕ, ◌<◌, ◌≤◌, ◌&&◌, nat_lt, not, if◌then◌else◌, length};
ghost use Rattle.rg_rules.specs.Environment as env;
ghost use Rattle.rg_flow.specs.Flows.{state_of, Sets};
ghost use Rattle.rg_flow.specs.States.{readiness_of};
ghost use Rattle.rg_flow.specs.Inner.Layout.{names_at};

use super::var::Var;
use crate::flow::Flow;

/// The state of an `iso` variable; a variable of another type is always ready.
#[derive(Clone, Copy)]
pub enum State {
    /// It may be used.
    Ready,
    /// It was used up.
    Gone,
    /// Its region is entered.
    Lent,
}

impl State {
    /// Whether a state is ready.
    pub fn is_ready(self) -> bool
        ensures { result ≡ env.is_ready (readiness_of self) }
    {
        match self {
            State::Ready => true,
            State::Gone | State::Lent => false,
        }
    }

    /// Whether a state is lent.
    pub fn is_lent(self) -> bool
        ensures { result ≡ env.is_lent (readiness_of self) }
    {
        match self {
            State::Lent => true,
            State::Ready | State::Gone => false,
        }
    }
}

/// The state of a variable.
pub fn read_state(flow: &Flow, v: u32) -> State
    requires { v < 256 }
    ensures { readiness_of result ≡ state_of flow.now v }
{
    if flow.is_ready(v) {
        return State::Ready;
    }
    let mut trial = *flow;
    match trial.give(v) {
        Ok(()) => State::Gone,
        Err(_) => State::Lent,
    }
}

/// Puts a variable into a state, whatever it was.
pub fn set(flow: &mut Flow, v: u32, now: State)
    requires { v < 256 }
    ensures { Sets flow.old flow.new v (readiness_of now) }
{
    flow.unlend(v);
    match now {
        State::Ready => {},
        State::Gone => {
            let Ok(()) = flow.take(v) else { unreachable!() };
        },
        State::Lent => {
            let Ok(()) = flow.lend(v) else { unreachable!() };
        },
    }
}

/// Puts the variables of a name into a state.
pub fn set_named(flow: &mut Flow, vars: &[Var], name: Option<u32>, now: State)
    requires { length vars.now ≤ 256 }
    ensures { (w : ℕ) → state_of flow.new w
        ≡ (if names_at name vars.now w then readiness_of now else state_of flow.old w) }
{
    for k in 0..vars.len() {
        if vars[k].name == name {
            set(flow, k as u32, now);
        }
    }
}

/// The variables from one on and before another are gone.
pub fn forget(flow: &mut Flow, from: u32, to: u32)
    requires ordered { from ≤ to }
    requires within { to ≤ 256 }
    ensures { (w : ℕ) → state_of flow.new w
        ≡ (if not (nat_lt w from) && nat_lt w to then env.gone else state_of flow.old w) }
{
    for k in from..to {
        set(flow, k, State::Gone);
    }
}
