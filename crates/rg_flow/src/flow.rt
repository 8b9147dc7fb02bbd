//! The states of variables (docs/language.md, "Judgements").

ghost use Rattle.std.specs.Prelude.{◌≡◌, ℕ, ◌<◌, ◌↔◌, not, IsTrue, OnOk, OnErr};
ghost use Rattle.rg_base.specs.declared.fault.Code.TheVariants.{Unavailable};
ghost use Rattle.rg_rules.specs.Answers.{test};
ghost use Rattle.rg_rules.specs.Environment as env;
ghost use Rattle.rg_flow.specs.Flows.{state_of, Sets, Covers, IsReadySet};

use crate::sets::{NONE, both, contains, cut, put, within, without};
use rg_base::Code;

/// The states of up to 256 variables, which go by their numbers.
#[derive(Clone, Copy)]
pub struct Flow {
    // of those that aren't lent, the ready ones
    ready: [u64; 4],
    lent: [u64; 4],
}

impl Flow {
    /// Each variable is gone.
    pub fn new() -> Flow
        ensures { (v : ℕ) → state_of result v ≡ env.gone }
    {
        Flow {
            ready: NONE,
            lent: NONE,
        }
    }

    /// Whether a variable is ready.
    pub fn is_ready(&self, v: u32) -> bool
        requires { v < 256 }
        ensures { result ≡ env.is_ready (state_of self.now v) }
    {
        if contains(&self.lent, v) {
            return false;
        }
        contains(&self.ready, v)
    }

    /// Takes a ready variable, which is gone then.
    pub fn take(&mut self, v: u32) -> Result<(), Code>
        requires { v < 256 }
        ensures answer { result ≡ test (env.is_ready (state_of self.old v)) Unavailable }
        ensures gone { OnOk result (Sets self.old self.new v env.gone) }
        ensures unchanged { OnErr result (self.new ≡ self.old) }
    {
        if self.is_ready(v) {
            cut(&mut self.ready, v);
            Ok(())
        } else {
            Err(Code::Unavailable)
        }
    }

    /// Lends a ready variable.
    pub fn lend(&mut self, v: u32) -> Result<(), Code>
        requires { v < 256 }
        ensures answer { result ≡ test (env.is_ready (state_of self.old v)) Unavailable }
        ensures lent { OnOk result (Sets self.old self.new v env.lent) }
        ensures unchanged { OnErr result (self.new ≡ self.old) }
    {
        if self.is_ready(v) {
            put(&mut self.lent, v);
            Ok(())
        } else {
            Err(Code::Unavailable)
        }
    }

    /// Gives a variable a value, if it isn't lent.
    pub fn give(&mut self, v: u32) -> Result<(), Code>
        requires { v < 256 }
        ensures answer { result ≡ test (not (env.is_lent (state_of self.old v))) Unavailable }
        ensures ready { OnOk result (Sets self.old self.new v env.ready) }
        ensures unchanged { OnErr result (self.new ≡ self.old) }
    {
        if contains(&self.lent, v) {
            return Err(Code::Unavailable);
        }
        put(&mut self.ready, v);
        Ok(())
    }

    /// Makes a variable ready, whatever it was. A loan of it ends.
    pub fn unlend(&mut self, v: u32)
        requires { v < 256 }
        ensures { Sets self.old self.new v env.ready }
    {
        cut(&mut self.lent, v);
        put(&mut self.ready, v);
    }

    /// The states after one of two blocks.
    pub fn join(self, other: Flow) -> Flow
        ensures { (v : ℕ) →
            state_of result v ≡ env.joined_readiness (state_of self v) (state_of other v) }
    {
        Flow {
            ready: both(&self.available(), &other.available()),
            lent: both(&self.lent, &other.lent),
        }
    }

    /// Whether all that is ready at the head of a loop is ready here too.
    pub fn covers(&self, head: &Flow) -> bool
        ensures { IsTrue result ↔ Covers self.now head.now }
    {
        within(&head.available(), &self.available())
    }

    // The ready variables.
    fn available(&self) -> [u64; 4]
        ensures { IsReadySet self.now result }
    {
        without(&self.ready, &self.lent)
    }
}
