//! Blocks, raised from their code (docs/architecture.md, "Modules").

ghost use Rattle.std.specs.Prelude.{◌≡◌, ℕ, suc, ◌+◌, ◌<◌, ◌^◌, List, [], ◌∷◌, ◌++◌, length, IfOk};
ghost use Rattle.std.specs.Prelude.{Some, None};
ghost use Rattle.rg_base.specs.declared.ty.Ty.{Ty as Types};
ghost use Rattle.rg_tree.specs.Adds.{Extends};
ghost use Rattle.rg_verify_expressions.specs.Raised.{Raised, named, Front as OneFront, expression};
ghost use Rattle.rg_verify_expressions.specs.declared.signs.Walk.TheVariants as walk;
ghost use Rattle.rg_verify_expressions.specs.declared.signs.Open.TheVariants as opens;
ghost use Rattle.rg_verify_expressions.specs.Rows.{IsTree};
ghost use Rattle.rg_verify_expressions.specs.Signs.{close_of, open_of, walk_of};
ghost use Rattle.rg_verify_expressions.specs.Statements as statements;
ghost use Rattle.rg_verify_expressions.specs.Blocks as blocks;
ghost use Rattle.rg_verify_expressions.specs.Blocks.{Inner, sign, block_told};
ghost use Rattle.rg_raise.specs.Fronts.{Spans, TakesFirst};
ghost use Rattle.rg_raise.specs.Telling.{given, MakesAs, IsKindSaid};
ghost use Rattle.rg_blocks.specs.Blocks.{AreSaid, IsBlockSaid, IsWindowSaid, array_told};

use crate::ends::{behind_end, behind_leave, starts_at};
use crate::parts::{entered, path_in, put_block, put_stmt};
use crate::said::WindowSaid;
use crate::signs::{close_at, jump_at, open_at};
use crate::types::bridge_class;
use rg_base::{Cap, Ty};
use rg_raise::{
    After, Fronts, KindSaid, RightSaid, Source, Stretch, array_row, behind_uses, element_written,
    longer_path, made_behind, object_by, raise_fronts, slot_type, take_first, taken, walk_at,
};
use rg_tree::{Program, Right, Span, StmtKind};
use rg_verify_expressions::{Close, FrontRow, Open, Refusal, Walk, path_row};

// The second block of an `if`, behind the jump over it.
#[cycle(block)]
fn otherwise_told(
    source: &Source<'_>,
    program: &mut Program,
    types: &mut Vec<Ty>,
    depth: usize,
    line: u64,
    test: u32,
    yes: Span,
    to: usize,
    at: usize,
) -> Result<(KindSaid, usize), Refusal>
    ensures told { (e : Raised) (b : statements.Block) →
        IsTree program.old test (named source.now.body.in_method e) →
        IsBlockSaid source.now.body.in_method (length types.old.items) program.old yes b →
        let g = given source.now in
        MakesAs (IsKindSaid source.now.body.in_method (length types.old.items)) program.old
        program.new
        (blocks.otherwise_told g (block_told g depth) types.old.items line e b to at) result }
    ensures grows { Extends program.old program.new }
    ensures types { IfOk result (λ x. types.new.items ≡ types.old.items) }
{
    let slots = types.len();
    let (no, behind) = raise_inner(source, program, types, depth, at)?;
    let Some(end) = behind_end(source.parts.code(), line, slots, behind) else {
        return Err(Refusal::NotRaised);
    };
    if to != end {
        return Err(Refusal::NotRaised);
    }
    let row = StmtKind::If {
        test,
        yes,
        no: Some(no),
    };
    let after = After::Same;
    Ok((KindSaid { row, after }, end))
}

// A loop, or an `if` with two blocks, whose first block has ended in front of a jump.
#[cycle(block)]
fn jumped(
    source: &Source<'_>,
    program: &mut Program,
    types: &mut Vec<Ty>,
    depth: usize,
    line: u64,
    start: usize,
    test: u32,
    yes: Span,
    fails: usize,
    at: usize,
) -> Result<(KindSaid, usize), Refusal>
    ensures told { (e : Raised) (b : statements.Block) →
        IsTree program.old test (named source.now.body.in_method e) →
        IsBlockSaid source.now.body.in_method (length types.old.items) program.old yes b →
        let g = given source.now in
        MakesAs (IsKindSaid source.now.body.in_method (length types.old.items)) program.old
        program.new
        (blocks.jumped g (block_told g depth) types.old.items line start e b fails at) result }
    ensures grows { Extends program.old program.new }
    ensures types { IfOk result (λ x. types.new.items ≡ types.old.items) }
{
    let Some(to) = jump_at(source.parts.code(), at) else {
        return Err(Refusal::NotRaised);
    };
    let behind = at + 1;
    if fails != behind {
        return Err(Refusal::NotRaised);
    }
    if to == start {
        let row = StmtKind::While { test, body: yes };
        let after = After::Same;
        return Ok((KindSaid { row, after }, behind));
    }
    otherwise_told(source, program, types, depth, line, test, yes, to, behind)
}

// An `if` or a loop, behind the jump over its block.
#[cycle(block)]
fn tested(
    source: &Source<'_>,
    program: &mut Program,
    types: &mut Vec<Ty>,
    depth: usize,
    line: u64,
    start: usize,
    test: u32,
    fails: usize,
    at: usize,
) -> Result<(KindSaid, usize), Refusal>
    ensures told { (e : Raised) → IsTree program.old test (named source.now.body.in_method e) →
        let g = given source.now in
        MakesAs (IsKindSaid source.now.body.in_method (length types.old.items)) program.old
        program.new
        (blocks.tested g (block_told g depth) types.old.items line start e fails at) result }
    ensures grows { Extends program.old program.new }
    ensures types { IfOk result (λ x. types.new.items ≡ types.old.items) }
{
    let slots = types.len();
    let (yes, behind) = raise_inner(source, program, types, depth, at)?;
    let Some(end) = behind_end(source.parts.code(), line, slots, behind) else {
        return Err(Refusal::NotRaised);
    };
    if fails == end {
        let row = StmtKind::If {
            test,
            yes,
            no: None,
        };
        let after = After::Same;
        return Ok((KindSaid { row, after }, end));
    }
    jumped(
        source, program, types, depth, line, start, test, yes, fails, end,
    )
}

// A statement that begins with a whole expression, by what stands behind that.
#[cycle(block)]
fn close_by(
    source: &Source<'_>,
    program: &mut Program,
    types: &mut Vec<Ty>,
    depth: usize,
    line: u64,
    start: usize,
    test: u32,
    at: usize,
) -> Result<(KindSaid, usize), Refusal>
    ensures told { (e : Raised) → IsTree program.old test (named source.now.body.in_method e) →
        let g = given source.now in
        MakesAs (IsKindSaid source.now.body.in_method (length types.old.items)) program.old
        program.new
        (blocks.close_by g (block_told g depth) types.old.items line start e at
        (sign close_of g.ops at)) result }
    ensures grows { Extends program.old program.new }
    ensures types { IfOk result (λ x. types.new.items ≡ types.old.items) }
{
    match close_at(source.parts.code(), at) {
        None => {
            let row = Right::Expr(test);
            let right = RightSaid { row, paces: false };
            taken(source, program, types, right, at)
        }
        Some(Close::Print) => {
            let row = StmtKind::Print(test);
            let after = After::Same;
            Ok((KindSaid { row, after }, at + 1))
        }
        Some(Close::Return) => {
            let row = StmtKind::Return(test);
            let after = After::Last;
            Ok((KindSaid { row, after }, at + 1))
        }
        Some(Close::Test { to }) => {
            tested(source, program, types, depth, line, start, test, to, at + 1)
        }
    }
}

// The block of an `enter`, with the slot that gives its bridge.
#[cycle(block)]
fn window(
    source: &Source<'_>,
    program: &mut Program,
    types: &mut Vec<Ty>,
    depth: usize,
    line: u64,
    bridge: u32,
    at: usize,
) -> Result<(WindowSaid, usize), Refusal>
    ensures told { let g = given source.now in
        MakesAs (IsWindowSaid source.now.body.in_method (length types.old.items)) program.old
        program.new
        (blocks.window g (block_told g depth) types.old.items line bridge at) result }
    ensures grows { Extends program.old program.new }
    ensures types { IfOk result (λ x. types.new.items ≡ types.old.items) }
    ensures next { IfOk result (λ x. bridge ≡ length types.old.items) }
{
    let slots = types.len();
    if bridge as usize != slots {
        return Err(Refusal::NotRaised);
    }
    let Some(ty) = slot_type(source.parts, at, bridge) else {
        return Err(Refusal::NotRaised);
    };
    let Some(class) = bridge_class(ty) else {
        return Err(Refusal::NotRaised);
    };
    let cap = Cap::Mut;
    let Ok(()) = types.push(Ty::Ref { cap, class }) else {
        return Err(Refusal::Memory);
    };
    let (block, behind) = raise_inner(source, program, types, depth, at)?;
    types.truncate(slots);
    let Some((given, end)) = behind_leave(source.parts.code(), line, slots, behind) else {
        return Err(Refusal::NotRaised);
    };
    Ok((WindowSaid { block, given }, end))
}

// A field is entered.
#[cycle(block)]
fn field_entered(
    source: &Source<'_>,
    program: &mut Program,
    types: &mut Vec<Ty>,
    depth: usize,
    line: u64,
    start: usize,
    test: u32,
    index: u32,
    bridge: u32,
    at: usize,
) -> Result<(KindSaid, usize), Refusal>
    requires tree { (e : Raised) × IsTree program.old test (named source.now.body.in_method e) }
    requires next { at + 1 < 2 ^ 64 }
    ensures told { (e : Raised) → IsTree program.old test (named source.now.body.in_method e) →
        let g = given source.now in
        MakesAs (IsKindSaid source.now.body.in_method (length types.old.items)) program.old
        program.new
        (blocks.expr_by g (block_told g depth) types.old.items line start e at
        (Some (walk.Enter index bridge))) result }
    ensures grows { Extends program.old program.new }
    ensures types { IfOk result (λ x. types.new.items ≡ types.old.items) }
{
    let Some(path) = path_in(source.body, program, test) else {
        return Err(Refusal::NotRaised);
    };
    let (inside, end) = window(source, program, types, depth, line, bridge, at + 1)?;
    let Ok(path) = longer_path(source.body, program, path, index) else {
        return Err(Refusal::Memory);
    };
    let Ok(kind) = entered(source.body, program, path, bridge, inside) else {
        return Err(Refusal::Memory);
    };
    Ok((kind, end))
}

// A new array of so many elements goes into a slot.
fn array_taken(
    source: &Source<'_>,
    program: &mut Program,
    types: &Vec<Ty>,
    walk: Walk,
    row: u32,
    at: usize,
) -> Result<(KindSaid, usize), Refusal>
    requires next { at + 1 < 2 ^ 64 }
    ensures told { (e : Raised) → IsTree program.old row (named source.now.body.in_method e) →
        MakesAs (IsKindSaid source.now.body.in_method (length types.now.items)) program.old
        program.new (array_told (given source.now) types.now.items e at walk) result }
    ensures grows { Extends program.old program.new }
{
    let right = array_row(source.body, program, walk, row)?;
    taken(source, program, types, right, at + 1)
}

// A statement that begins with a whole expression, behind which what it uses up is cleared.
#[cycle(block)]
fn whole(
    source: &Source<'_>,
    program: &mut Program,
    types: &mut Vec<Ty>,
    depth: usize,
    line: u64,
    start: usize,
    test: u32,
    code: Stretch,
) -> Result<(KindSaid, usize), Refusal>
    ensures told { (e : Raised) → IsTree program.old test (named source.now.body.in_method e) →
        Spans source.now.parts.now.code.ops code (expression e ∷ []) →
        let g = given source.now in
        MakesAs (IsKindSaid source.now.body.in_method (length types.old.items)) program.old
        program.new
        (blocks.expr_by g (block_told g depth) types.old.items line start e code.end None) result }
    ensures grows { Extends program.old program.new }
    ensures types { IfOk result (λ x. types.new.items ≡ types.old.items) }
{
    let Some(behind) = behind_uses(source.parts.code(), types, code, code.end) else {
        return Err(Refusal::NotRaised);
    };
    close_by(source, program, types, depth, line, start, test, behind)
}

// A statement that begins with an expression, by what stands behind that.
#[cycle(block)]
fn expr_by(
    source: &Source<'_>,
    program: &mut Program,
    types: &mut Vec<Ty>,
    depth: usize,
    line: u64,
    start: usize,
    row: u32,
    code: Stretch,
) -> Result<(KindSaid, usize), Refusal>
    requires { (e : Raised) × IsTree program.old row (named source.now.body.in_method e) }
    ensures told { (e : Raised) → IsTree program.old row (named source.now.body.in_method e) →
        Spans source.now.parts.now.code.ops code (expression e ∷ []) →
        let g = given source.now in
        MakesAs (IsKindSaid source.now.body.in_method (length types.old.items)) program.old
        program.new
        (blocks.expr_by g (block_told g depth) types.old.items line start e code.end
        (sign walk_of g.ops code.end)) result }
    ensures grows { Extends program.old program.new }
    ensures types { IfOk result (λ x. types.new.items ≡ types.old.items) }
{
    let Some(walk) = walk_at(source.parts.code(), code.end) else {
        return whole(source, program, types, depth, line, start, row, code);
    };
    if let Walk::Enter { index, bridge } = walk {
        return field_entered(
            source, program, types, depth, line, start, row, index, bridge, code.end,
        );
    }
    array_taken(source, program, types, walk, row, code.end)
}

// A variable is entered.
#[cycle(block)]
fn slot_entered(
    source: &Source<'_>,
    program: &mut Program,
    types: &mut Vec<Ty>,
    depth: usize,
    line: u64,
    slot: u32,
    bridge: u32,
    at: usize,
) -> Result<(KindSaid, usize), Refusal>
    requires next { at + 1 < 2 ^ 64 }
    ensures told { let g = given source.now in
        MakesAs (IsKindSaid source.now.body.in_method (length types.old.items)) program.old
        program.new
        (blocks.open_by g (block_told g depth) types.old.items line at
        (Some (opens.Enter slot bridge))) result }
    ensures grows { Extends program.old program.new }
    ensures types { IfOk result (λ x. types.new.items ≡ types.old.items) }
{
    let (inside, end) = window(source, program, types, depth, line, bridge, at + 1)?;
    let Ok(path) = path_row(source.body, program, slot, &[]) else {
        return Err(Refusal::Memory);
    };
    let Ok(kind) = entered(source.body, program, path, bridge, inside) else {
        return Err(Refusal::Memory);
    };
    Ok((kind, end))
}

// A right side of one instruction goes into a slot.
fn made_taken(
    source: &Source<'_>,
    program: &mut Program,
    types: &Vec<Ty>,
    at: usize,
) -> Result<(KindSaid, usize), Refusal>
    ensures told { (inner : Inner) (line : ℕ) →
        MakesAs (IsKindSaid source.now.body.in_method (length types.now.items)) program.old
        program.new (blocks.open_by (given source.now) inner types.now.items line at None) result }
    ensures grows { Extends program.old program.new }
{
    let (right, behind) = made_behind(source, program, at)?;
    taken(source, program, types, right, behind)
}

// A statement with nothing in front, by its first instruction.
#[cycle(block)]
fn open_by(
    source: &Source<'_>,
    program: &mut Program,
    types: &mut Vec<Ty>,
    depth: usize,
    line: u64,
    at: usize,
) -> Result<(KindSaid, usize), Refusal>
    ensures told { let g = given source.now in
        MakesAs (IsKindSaid source.now.body.in_method (length types.old.items)) program.old
        program.new
        (blocks.open_by g (block_told g depth) types.old.items line at (sign open_of g.ops at))
        result }
    ensures grows { Extends program.old program.new }
    ensures types { IfOk result (λ x. types.new.items ≡ types.old.items) }
{
    match open_at(source.parts.code(), at) {
        None => made_taken(source, program, types, at),
        Some(Open::Collect) => {
            let row = StmtKind::Collect;
            let after = After::Same;
            Ok((KindSaid { row, after }, at + 1))
        }
        Some(Open::Enter { slot, bridge }) => {
            slot_entered(source, program, types, depth, line, slot, bridge, at)
        }
    }
}

// A statement, by what it begins with.
#[cycle(block)]
fn kind_by(
    source: &Source<'_>,
    program: &mut Program,
    types: &mut Vec<Ty>,
    depth: usize,
    line: u64,
    start: usize,
    first: Option<FrontRow>,
    fronts: Fronts,
) -> Result<(KindSaid, usize), Refusal>
    requires { (fs : List OneFront) ×
        TakesFirst program.old source.now.body.in_method source.now.parts.now.code.ops fronts fs
        first }
    ensures told { (fs : List OneFront) →
        TakesFirst program.old source.now.body.in_method source.now.parts.now.code.ops fronts fs
        first →
        let g = given source.now in
        MakesAs (IsKindSaid source.now.body.in_method (length types.old.items)) program.old
        program.new
        (blocks.kind_by g (block_told g depth) types.old.items line start fs fronts.code.end)
        result }
    ensures grows { Extends program.old program.new }
    ensures types { IfOk result (λ x. types.new.items ≡ types.old.items) }
{
    let code = fronts.code;
    let Some(front) = first else {
        return open_by(source, program, types, depth, line, code.end);
    };
    match front {
        FrontRow::Expression { row } => {
            if fronts.rows.len() != 0 {
                return Err(Refusal::NotRaised);
            }
            expr_by(source, program, types, depth, line, start, row, code)
        }
        FrontRow::Object { path } => object_by(source, program, types, path, fronts),
        FrontRow::Place { path, index } => {
            element_written(source, program, types, path, index, fronts)
        }
    }
}

// The statement of a line whose mark stands at an address.
#[cycle(block)]
fn kind_told(
    source: &Source<'_>,
    program: &mut Program,
    types: &mut Vec<Ty>,
    depth: usize,
    line: u64,
    at: usize,
) -> Result<(KindSaid, usize), Refusal>
    requires next { at + 1 < 2 ^ 64 }
    ensures told { let g = given source.now in
        MakesAs (IsKindSaid source.now.body.in_method (length types.old.items)) program.old
        program.new
        (blocks.kind_told g (block_told g depth) types.old.items line at) result }
    ensures grows { Extends program.old program.new }
    ensures types { IfOk result (λ x. types.new.items ≡ types.old.items) }
{
    let mut fronts = raise_fronts(source.body, program, source.parts.code(), at + 1)?;
    let first = take_first(source.parts.code(), &mut fronts);
    kind_by(source, program, types, depth, line, at, first, fronts)
}

// The statements of a block, by their numbers, and the address behind them.
#[cycle(block)]
fn raise_statements(
    source: &Source<'_>,
    program: &mut Program,
    types: &mut Vec<Ty>,
    depth: usize,
    at: usize,
) -> Result<(Vec<u32>, usize), Refusal>
    ensures told { let g = given source.now in
        MakesAs (AreSaid source.now.body.in_method (length types.old.items)) program.old
        program.new
        (blocks.statements g (block_told g depth) (suc (length g.ops)) types.old.items at) result }
    ensures grows { Extends program.old program.new }
    ensures types { IfOk result (λ x.
        (more : List Types) × (types.new.items ≡ types.old.items ++ more)) }
{
    let mut numbers = Vec::new(source.body.alloc);
    let mut end = at;
    while let Some(line) = starts_at(source.parts.code(), end) {
        let (kind, behind) = kind_told(source, program, types, depth, line, end)?;
        let Ok(number) = put_stmt(program, line, kind.row) else {
            return Err(Refusal::Memory);
        };
        let Ok(()) = numbers.push(number) else {
            return Err(Refusal::Memory);
        };
        end = behind;
        match kind.after {
            After::Same => {}
            After::More { ty } => {
                let Ok(()) = types.push(ty) else {
                    return Err(Refusal::Memory);
                };
            }
            After::Last => return Ok((numbers, end)),
        }
    }
    Ok((numbers, end))
}

// A block in which blocks stand so deep at most.
#[cycle(block)]
fn raise_inner(
    source: &Source<'_>,
    program: &mut Program,
    types: &mut Vec<Ty>,
    depth: usize,
    at: usize,
) -> Result<(Span, usize), Refusal>
    ensures told { let g = given source.now in
        MakesAs (IsBlockSaid source.now.body.in_method (length types.old.items)) program.old
        program.new (block_told g depth types.old.items at) result }
    ensures grows { Extends program.old program.new }
    ensures types { IfOk result (λ x. types.new.items ≡ types.old.items) }
{
    if depth == 0 {
        return Err(Refusal::NotRaised);
    }
    let slots = types.len();
    let (numbers, end) = raise_statements(source, program, types, depth - 1, at)?;
    types.truncate(slots);
    let Ok(span) = put_block(program, numbers.as_slice()) else {
        return Err(Refusal::Memory);
    };
    Ok((span, end))
}

/// The block whose code stands at an address, behind variables of these types, as rows, and the
/// address behind it; blocks stand in it so deep at most.
pub fn raise_block(
    source: &Source<'_>,
    program: &mut Program,
    types: Vec<Ty>,
    depth: usize,
    at: usize,
) -> Result<(Span, usize), Refusal>
    ensures told { MakesAs (IsBlockSaid source.now.body.in_method (length types.items)) program.old
        program.new (block_told (given source.now) depth types.items at) result }
    ensures grows { Extends program.old program.new }
{
    let mut behind = types;
    raise_inner(source, program, &mut behind, depth, at)
}
