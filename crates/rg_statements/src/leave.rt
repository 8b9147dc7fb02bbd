//! The steps that end the blocks of `enter`, with and without `giving`: the window goes, and with
//! `giving` what owned its region leads to another object (docs/language.md, "Steps").

ghost use Rattle.std.specs.Prelude.{◌++◌, ◌∷◌, ◌≡◌, [], List, false, ℕ};
ghost use Rattle.rg_values.specs.Fits.{PartsFit};
ghost use Rattle.rg_values.specs.Steps.{GoesOn, Makes};
ghost use Rattle.rg_statements.specs.Inner.Windows.{left_at};
ghost use Rattle.rg_values.specs.Kept.{kept_of, plain_of, put_row, shown};
ghost use Rattle.rg_values.specs.Printing.{first_prints};

use rg_names::Book;
use rg_store::object_place;
use rg_values::{ItemRow, Parts, Refusal, keep, pop_row, put_owner, variable};

/// Takes the row of the end away: so many variables stay, and the window goes; one that is alone
/// stays.
fn shut(book: &Book, m: &mut Parts, row: ItemRow, kept: usize)
    requires top { (below : List ItemRow) × (m.old.items.items ≡ below ++ row ∷ []) }
    requires fit { PartsFit book.now.program m.old }
    ensures items { shown book.now.program m.old.items.items
        ≡ put_row book.now.program row (shown book.now.program m.new.items.items) }
    ensures shut { (input : List ℕ) → plain_of book.now.program (kept_of m.new) input
        ≡ left_at kept (plain_of book.now.program (kept_of m.old) input)
        (shown book.now.program m.new.items.items) }
    ensures fit { PartsFit book.now.program m.new }
{
    pop_row(book, &mut m.items, row);
    let Some(window) = m.outer.pop() else {
        return;
    };
    m.window = window;
    keep(book, &mut m.frame.locals, kept);
}

/// Ends the block of an `enter`: so many variables stay, and its window goes.
pub fn leave_step(book: &Book, m: &mut Parts, kept: usize)
    requires top { (below : List ItemRow) ×
        (m.old.items.items ≡ below ++ ItemRow.LeaveAt kept ∷ []) }
    requires fit { PartsFit book.now.program m.old }
    ensures step { GoesOn book.now.program (kept_of m.old) (kept_of m.new) }
    ensures quiet { first_prints (shown book.now.program m.old.items.items) ≡ false }
    ensures fit { PartsFit book.now.program m.new }
{
    shut(book, m, ItemRow::LeaveAt(kept), kept);
}

/// The same with `giving`: a variable is read, and nil traps; then the block ends, and the place of
/// the window's owner takes what the variable had. A window that is alone has no owner.
pub fn leave_giving_step(
    book: &Book,
    m: &mut Parts,
    line: u64,
    kept: usize,
    name: u32,
) -> Result<(), Refusal>
    requires top { (below : List ItemRow) ×
        (m.old.items.items ≡ below ++ ItemRow.LeaveGiving line kept name ∷ []) }
    requires fit { PartsFit book.now.program m.old }
    ensures step { Makes book.now.program (kept_of m.old) (kept_of m.new) line result }
    ensures quiet { first_prints (shown book.now.program m.old.items.items) ≡ false }
    ensures fit { PartsFit book.now.program m.new }
{
    let row = ItemRow::LeaveGiving { line, kept, name };
    if m.outer.is_empty() {
        shut(book, m, row, kept);
        return Ok(());
    }
    let given = variable(book, &m.frame.locals, Some(name));
    object_place(&m.store, given)?;
    let owner = m.window.owner;
    shut(book, m, row, kept);
    put_owner(book, m, owner, given);
    Ok(())
}
