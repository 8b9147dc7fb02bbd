//! The two topmost words on the stack (docs/architecture.md, "The machine").

ghost use Rattle.std.specs.Prelude.{◌≡◌, IfSome, None};
ghost use Rattle.rg_base.specs.declared.value.Val.TheVariants.{Int};
ghost use Rattle.rg_machine.specs.Core.{below_top, with_top};
ghost use Rattle.rg_machine.specs.Cores.{core_of};
ghost use Rattle.rg_machine.specs.Inner.Arrays.{IsShort};
ghost use Rattle.rg_machine.specs.Parts.{val_in};
ghost use Rattle.rg_machine.specs.Stands.{Leads};

use super::Machine;
use rg_base::Word;

impl Machine {
    /// The two topmost words, the topmost last, where there are two.
    #[inline]
    pub(crate) fn two_words(&self) -> Option<(Word, Word)>
        ensures core { IfSome result (λ t. core_of self.now ≡ with_top
            (with_top (below_top (below_top (core_of self.now))) (val_in self.now t.0))
            (val_in self.now t.1)) }
        ensures leads { IfSome result (λ t. Leads self.now.heap self.now.frames t.0) }
        ensures none { result ≡ None → IsShort (core_of self.now).stack }
    {
        let len = self.stack.len();
        if len < 2 {
            return None;
        }
        Some((self.stack[len - 2], self.stack[len - 1]))
    }

    /// The two topmost words, the topmost last, where both are numbers.
    #[inline]
    pub(crate) fn two_numbers(&self) -> Option<(i64, i64)>
        ensures { IfSome result (λ t. core_of self.now ≡ with_top
            (with_top (below_top (below_top (core_of self.now))) (Int t.0)) (Int t.1)) }
    {
        let len = self.stack.len();
        if len < 2 {
            return None;
        }
        let Word::Int(x) = self.stack[len - 2] else {
            return None;
        };
        let Word::Int(y) = self.stack[len - 1] else {
            return None;
        };
        Some((x, y))
    }
}
