//! Maps, laid on the marks of a code in order (docs/architecture.md, "Modules").

ghost use Rattle.std.specs.Prelude.{◌<◌, [], ◌∷◌, length, OnOk};
ghost use Rattle.rg_code.specs.Shapes.{IsMark};
ghost use Rattle.rg_build.specs.Inner.Laid.{IsOpen, Lays};

use rg_base::Memory;
use rg_module::{Module, Tys};

/// A module, and the address from which on its marks have no maps yet.
#[derive(Drop)]
pub struct Laying {
    pub module: Module,
    pub at: usize,
}

impl Laying {
    /// The next mark gets a map.
    pub fn put(&mut self, map: Tys) -> Result<(), Memory>
        requires { IsOpen self.old }
        ensures { OnOk result (Lays self.old self.new (map ∷ [])) }
    {
        self.skip();
        let at = self.at;
        if at >= self.module.code().len() {
            return Ok(());
        }
        self.module.set_map(at, map)?;
        self.at = at + 1;
        Ok(())
    }

    // Goes on to the next mark, or to the end of the code.
    fn skip(&mut self)
        requires { IsOpen self.old }
        ensures same { Lays self.old self.new [] }
        ensures mark { self.new.at < length self.new.module.code.ops →
            IsMark self.new.module.code.ops self.new.at }
    {
        while self.at < self.module.code().len() {
            if self.module.code().begins(self.at) {
                return;
            }
            self.at += 1;
        }
    }
}
