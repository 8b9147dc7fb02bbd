//! What is still to do, and the statement that comes next (docs/language.md, "Steps").

ghost use Rattle.std.specs.Prelude.{◌++◌, ◌+◌, ◌<◌, ◌∷◌, ◌≡◌, ◌≤◌, [], List, length, vec_capacity};
ghost use Rattle.rg_tree.specs.Rows.RowTrees.{stmt_at, method_of};
ghost use Rattle.rg_tree.specs.Rows.RowsExist.{IsBlockIn, IsMethodIn};
ghost use Rattle.rg_rules.specs.Bodies.{method_end};
ghost use Rattle.rg_rules.specs.Items.{Do, EndAt, items_of};
ghost use Rattle.rg_values.specs.Steps.{IsAt};
ghost use Rattle.rg_values.specs.Kept.{ItemsFit, put_row, shown};

use crate::state::rows::ItemRow;
use rg_names::Book;
use rg_tree::{MethodRow, Span};

/// The row in which a statement stands, its number and its line.
#[derive(Clone, Copy)]
pub struct At {
    pub span: Span,
    pub number: u32,
    pub line: u64,
}

/// The number of the first statement of the topmost row.
pub fn first(book: &Book, items: &[ItemRow], span: Span) -> u32
    requires top { (below : List ItemRow) × (items.now ≡ below ++ ItemRow.Rest span ∷ []) }
    requires fit { ItemsFit book.now.program items.now }
    ensures at { IsAt book.now.program items.now span result }
    ensures there { result < length book.now.program.stmts }
{
    book.order(span)[0]
}

/// Takes the first statement away.
pub fn advance(book: &Book, items: &mut Vec<ItemRow>, span: Span, number: u32)
    requires at { IsAt book.now.program items.old.items span number }
    ensures rest { shown book.now.program items.old.items
        ≡ Do (stmt_at book.now.program number) ∷ shown book.now.program items.new.items }
    ensures fit { ItemsFit book.now.program items.new.items }
    ensures room { vec_capacity items.new ≡ vec_capacity items.old }
    ensures shorter { length items.new.items ≤ length items.old.items }
{
    let _ = items.pop();
    let from = span.from + 1;
    if from < span.to {
        items.push_reserved(ItemRow::Rest(Span { from, to: span.to }));
    }
}

/// Puts statements in front, where there are some.
pub fn put_block(book: &Book, items: &mut Vec<ItemRow>, body: Span)
    requires room { length items.old.items < vec_capacity items.old }
    requires body { IsBlockIn book.now.program body }
    requires fit { ItemsFit book.now.program items.old.items }
    ensures shown { shown book.now.program items.new.items
        ≡ put_row book.now.program (ItemRow.Rest body) (shown book.now.program items.old.items) }
    ensures fit { ItemsFit book.now.program items.new.items }
{
    if body.from < body.to {
        items.push_reserved(ItemRow::Rest(body));
    }
}

/// Puts a block in front that keeps so many variables at its end.
pub fn open(book: &Book, items: &mut Vec<ItemRow>, kept: usize, body: Span)
    requires room { length items.old.items + 2 ≤ vec_capacity items.old }
    requires body { IsBlockIn book.now.program body }
    requires fit { ItemsFit book.now.program items.old.items }
    ensures shown { shown book.now.program items.new.items ≡ put_row book.now.program (ItemRow.Rest
        body) (EndAt kept ∷ shown book.now.program items.old.items) }
    ensures fit { ItemsFit book.now.program items.new.items }
{
    items.push_reserved(ItemRow::EndAt(kept));
    put_block(book, items, body);
}

/// Takes the topmost row away.
pub fn pop_row(book: &Book, items: &mut Vec<ItemRow>, row: ItemRow)
    requires top { (below : List ItemRow) × (items.old.items ≡ below ++ row ∷ []) }
    requires fit { ItemsFit book.now.program items.old.items }
    ensures shown { shown book.now.program items.old.items
        ≡ put_row book.now.program row (shown book.now.program items.new.items) }
    ensures fit { ItemsFit book.now.program items.new.items }
{
    let _ = items.pop();
}

/// Puts the statements of a method in front, and its end where it has no result.
pub fn open_body(book: &Book, items: &mut Vec<ItemRow>, method: MethodRow)
    requires room { length items.old.items + 2 ≤ vec_capacity items.old }
    requires method { IsMethodIn book.now.program method }
    requires fit { ItemsFit book.now.program items.old.items }
    ensures shown { shown book.now.program items.new.items ≡ items_of (method_of book.now.program
        method).body (method_end (method_of book.now.program method).result ++ shown
        book.now.program items.old.items) }
    ensures fit { ItemsFit book.now.program items.new.items }
{
    match method.result {
        Some(_) => put_block(book, items, method.body),
        None => {
            items.push_reserved(ItemRow::Back);
            put_block(book, items, method.body);
        }
    }
}
