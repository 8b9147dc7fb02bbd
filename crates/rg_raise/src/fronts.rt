//! What code begins with at an address, as rows (docs/architecture.md, "Modules").

ghost use Rattle.std.specs.Prelude.{◌≡◌, Bool as Truth, List};
ghost use Rattle.rg_tree.specs.Rows.Tables.{Tables};
ghost use Rattle.rg_tree.specs.Adds.{Extends};
ghost use Rattle.rg_code.specs.declared.op.Op.{Op};
ghost use Rattle.rg_verify_expressions.specs.Raised.{Front as OneFront};
ghost use Rattle.rg_raise.specs.Fronts.{AreFrontRows, AreFrontsAt, AreLeft, MakesFronts};
ghost use Rattle.rg_raise.specs.Fronts.{TakesFront};
ghost use Rattle.rg_raise.specs.Fronts.{TakesFirst, FindsAlone, FindsExprs};
ghost use Rattle.rg_raise.specs.Fronts as along;

use crate::said::{Exprs, Fronts, Stretch};
use crate::uses::behind_place;
use rg_code::CodeList;
use rg_tree::Program;
use rg_verify_expressions::{Body, FrontRow, Refusal, raise_expressions};

/// The fronts whose code stands at an address.
pub fn raise_fronts(
    body: Body,
    program: &mut Program,
    code: &CodeList,
    from: usize,
) -> Result<Fronts, Refusal>
    ensures told { MakesFronts program.old program.new body.in_method code.now.ops from result }
    ensures grows { Extends program.old program.new }
{
    if from > code.len() {
        let rows = Vec::new(body.alloc);
        let code = Stretch { from, end: from };
        return Ok(Fronts { rows, code });
    }
    let (rows, end) = raise_expressions(body.alloc, program, body.in_method, code, from)?;
    let code = Stretch { from, end };
    Ok(Fronts { rows, code })
}

/// Takes the first of some fronts.
pub(crate) fn take_front(rows: &mut Vec<FrontRow>) -> Option<FrontRow>
    ensures { (t : Tables) (m : Truth) (fs : List OneFront) → AreFrontRows t m rows.old.items fs →
        TakesFront t m rows.new.items fs result }
{
    if rows.len() == 0 {
        return None;
    }
    Some(rows.remove(0))
}

// Where the code begins that is left behind the first front: behind it, if it is a place.
fn start_by(code: &CodeList, first: Option<FrontRow>, stretch: Stretch) -> usize
    ensures { result ≡ along.start_by code.now.ops first stretch }
{
    match first {
        Some(FrontRow::Place { .. }) => behind_place(code, stretch),
        Some(FrontRow::Expression { .. }) | Some(FrontRow::Object { .. }) | None => stretch.from,
    }
}

/// Takes the first of the fronts at an address.
pub fn take_first(code: &CodeList, fronts: &mut Fronts) -> Option<FrontRow>
    ensures takes { (t : Tables) (m : Truth) (fs : List OneFront) →
        AreFrontsAt t m code.now.ops fronts.old fs →
        TakesFirst t m code.now.ops fronts.new fs result }
    ensures end { fronts.new.code.end ≡ fronts.old.code.end }
{
    let first = take_front(&mut fronts.rows);
    fronts.code.from = start_by(code, first, fronts.code);
    first
}

// The rows of expressions alone.
fn alone(body: Body, rows: &Vec<FrontRow>) -> Result<Vec<u32>, Refusal>
    ensures { FindsAlone rows.now.items result }
{
    let mut found = Vec::new(body.alloc);
    let mut at = 0;
    while at < rows.len() {
        let FrontRow::Expression { row } = rows[at] else {
            return Err(Refusal::NotRaised);
        };
        let Ok(()) = found.push(row) else {
            return Err(Refusal::Memory);
        };
        at += 1;
    }
    Ok(found)
}

/// Fronts as expressions, where they are that alone.
pub(crate) fn expressions(body: Body, fronts: &Fronts) -> Result<Exprs, Refusal>
    ensures { (t : Tables) (m : Truth) (ops : List Op) (fs : List OneFront) →
        AreLeft t m ops fronts.now fs → FindsExprs t m ops fronts.now fs result }
{
    let rows = alone(body, &fronts.rows)?;
    let code = fronts.code;
    Ok(Exprs { rows, code })
}
