//! A plan, line by line (docs/architecture.md, "Plans").

ghost use Rattle.std.specs.Prelude.{◌≡◌};
ghost use Rattle.rg_tree.specs.Rows.RowTrees.{program_of};
ghost use Rattle.rg_plan.specs.Plans.{ReadAs};
ghost use Rattle.rg_plan.specs.Rules as rules;

use crate::pieces::Pieces;
use crate::planned::Plan;
use crate::stop::bad;
use rg_base::{Manager, Stop};
use rg_names::Book;
use std::alloc::Global;

/// The plan that the bytes say for a program with its class table.
pub(crate) fn read_plan(alloc: Global, bytes: &[u8], book: &Book<'_>) -> Result<Plan, Stop>
    ensures { ReadAs (λ p. p) (rules.plan_of (program_of book.now.program) bytes.now) result }
{
    if !has_bare_main(book) {
        return Err(bad(0));
    }
    let mut plan = Plan::new(alloc);
    let mut lines = Pieces::of(bytes, b'\n');
    let mut line: u64 = 1;
    while let Some(text) = lines.next() {
        if lines.is_done() {
            if text.is_empty() {
                return Ok(plan);
            }
            return Err(bad(line));
        }
        plan.add_line(alloc, book, line, text)?;
        line += 1;
    }
    Ok(plan)
}

// Whether main is `main arena { }`.
fn has_bare_main(book: &Book<'_>) -> bool
    ensures { result ≡ rules.has_bare_main (program_of book.now.program) }
{
    match book.main_manager() {
        Manager::Arena => is_bare(book),
        Manager::Count | Manager::Trace => false,
    }
}

// Whether main's body has no statement.
fn is_bare(book: &Book<'_>) -> bool
    ensures { result ≡ rules.is_bare (program_of book.now.program).body }
{
    match book.order(book.main_body()) {
        [] => true,
        [_, ..] => false,
    }
}
