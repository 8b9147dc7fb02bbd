//! The step of `swap y, q.f` (docs/language.md, "Steps").

ghost use Rattle.std.specs.Prelude.{◌<◌, ◌≡◌, List, Some, length, slice_get, ℕ};
ghost use Rattle.rg_base.specs.declared.object.Seen.{Seen};
ghost use Rattle.rg_tree.specs.Rows.RowTrees.{path_of};
ghost use Rattle.rg_tree.specs.Rows.RowsExist.{IsNameIn, IsPathIn};
ghost use Rattle.rg_tree.specs.Rows.Tables.{name_at};
ghost use Rattle.rg_tree.specs.Tree.{swap};
ghost use Rattle.rg_values.specs.Fits.{PartsFit};
ghost use Rattle.rg_statements.specs.Inner.Swaps.{exchanged};
ghost use Rattle.rg_values.specs.Steps.{Makes, Stands};
ghost use Rattle.rg_values.specs.Kept.{kept_of, plain_of};

use rg_names::Book;
use rg_store::field_value;
use rg_tree::Path;
use rg_values::{Aim, At, Parts, Refusal, Spot, advance, put, spot_of, variable};

/// Exchanges the values of a variable and of a field of the object at a place.
fn exchange(book: &Book, m: &mut Parts, name: u32, place: usize, field: u32)
    requires fit { PartsFit book.now.program m.old }
    requires name { IsNameIn book.now.program name }
    requires there { place < length m.old.store.items }
    requires field { IsNameIn book.now.program field }
    ensures exchanged { (input : List ℕ) (o : Seen) → let old = plain_of book.now.program (kept_of
        m.old) input in slice_get old.store place ≡ Some o → plain_of book.now.program (kept_of
        m.new) input ≡ exchanged book.now.program old (name_at book.now.program name) place o
        (name_at book.now.program field) }
    ensures fit { PartsFit book.now.program m.new }
{
    let held = field_value(book, &m.store[place], field);
    let v = variable(book, &m.frame.locals, Some(name));
    put(book, m, Aim::Field { place, name: field }, v);
    put(book, m, Aim::Assigns(Some(name)), held);
}

/// Exchanges the values of a variable and a field. Without a field nothing changes.
pub fn swap_step(book: &Book, m: &mut Parts, at: At, name: u32, path: Path) -> Result<(), Refusal>
    requires stands { Stands book.now.program m.old at (swap (name_at book.now.program name)
        (path_of book.now.program path)) }
    requires name { IsNameIn book.now.program name }
    requires path { IsPathIn book.now.program path }
    ensures step { Makes book.now.program (kept_of m.old) (kept_of m.new) at.line result }
    ensures fit { PartsFit book.now.program m.new }
{
    let spot = spot_of(book, &m.store, &m.frame.locals, path)?;
    advance(book, &mut m.items, at.span, at.number);
    match spot {
        Spot::Variable(_) => Ok(()),
        Spot::Field { place, name: field } => {
            exchange(book, m, name, place, field);
            Ok(())
        }
    }
}
