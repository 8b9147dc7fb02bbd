//! Bodies, raised from their code (docs/architecture.md, "Modules").

ghost use Rattle.std.specs.Prelude.{◌≡◌, true, length, IfOk};
ghost use Rattle.rg_tree.specs.Adds.{Extends};
ghost use Rattle.rg_raise.specs.Telling.{given, MakesAs, MakesOne};
ghost use Rattle.rg_bodies.specs.Bodies as bodies;
ghost use Rattle.rg_bodies.specs.Bodies.{body_told, method_told, methods_told, bodies_told};
ghost use Rattle.rg_bodies.specs.Bodies.{types_in_front};
ghost use Rattle.rg_bodies.specs.Rows.{given_by, IsBodySaid, AreMethodsSaid, AreBodiesSaid};

use crate::ending::Ending;
use crate::ends::body_end;
use crate::rows::BodyRows;
use rg_base::{Memory, Ty};
use rg_blocks::raise_block;
use rg_classes::BodyRow;
use rg_module::Module;
use rg_raise::Source;
use rg_spell::Head;
use rg_tree::Program;
use rg_verify_expressions::{Body, Callee, Refusal};
use std::alloc::Global;

// The types of the variables in front of a method's body.
fn front_types(alloc: Global, head: &Head) -> Result<Vec<Ty>, Memory>
    ensures { IfOk result (λ types. types.items ≡ types_in_front head.now) }
{
    let mut types = Vec::new(alloc);
    let cap = head.cap;
    let class = head.class;
    let Ok(()) = types.push(Ty::Ref { cap, class }) else {
        return Err(Memory);
    };
    let Ok(()) = types.extend_from_slice(head.params.items()) else {
        return Err(Memory);
    };
    Ok(types)
}

// How the body of a method ends, by the type of its result.
fn ending_by(ty: Option<Ty>) -> Ending
    ensures { result ≡ bodies.ending_by ty }
{
    match ty {
        None => Ending::Plain,
        Some(_) => Ending::Giving,
    }
}

// The body that begins at an address, behind variables of these types, as a row, and the address
// behind it.
fn raise_body(
    source: &Source<'_>,
    program: &mut Program,
    types: Vec<Ty>,
    ending: Ending,
    depth: usize,
    at: usize,
) -> Result<(BodyRow, usize), Refusal>
    ensures told { MakesAs (IsBodySaid source.now.body.in_method (length types.items)) program.old
        program.new (body_told (given source.now) depth types.items ending at) result }
    ensures grows { Extends program.old program.new }
{
    let (block, behind) = raise_block(source, program, types, depth, at)?;
    let Some((line, end)) = body_end(source.parts.code(), ending, at, behind) else {
        return Err(Refusal::NotRaised);
    };
    Ok((BodyRow { block, line }, end))
}

// The body of a method that begins at an address.
fn raise_method(
    source: &Source<'_>,
    program: &mut Program,
    head: &Head,
    depth: usize,
    at: usize,
) -> Result<(BodyRow, usize), Refusal>
    ensures told { MakesAs
        (IsBodySaid source.now.body.in_method (length (types_in_front head.now))) program.old
        program.new (method_told (given source.now) depth head.now at) result }
    ensures grows { Extends program.old program.new }
{
    let Ok(types) = front_types(source.body.alloc, head) else {
        return Err(Refusal::Memory);
    };
    raise_body(source, program, types, ending_by(head.result), depth, at)
}

// The bodies of methods, the first of which begins at an address, up to the end of the code.
fn raise_methods(
    source: &Source<'_>,
    program: &mut Program,
    heads: &[Head],
    depth: usize,
    at: usize,
) -> Result<Vec<BodyRow>, Refusal>
    requires { source.now.body.in_method ≡ true }
    ensures told { MakesOne (λ t v. AreMethodsSaid heads.now t v.items) program.old program.new
        (methods_told (given source.now) depth heads.now at) result }
    ensures grows { Extends program.old program.new }
{
    let mut rows = Vec::new(source.body.alloc);
    let mut end = at;
    for head in heads {
        let (row, behind) = raise_method(source, program, head, depth, end)?;
        let Ok(()) = rows.push(row) else {
            return Err(Refusal::Memory);
        };
        end = behind;
    }
    if end != source.parts.code().len() {
        return Err(Refusal::NotRaised);
    }
    Ok(rows)
}

/// The bodies whose code is that of a module, main's and those of all methods, as rows; blocks
/// stand in each other so deep at most, a body's own counted. The callees are the methods of the
/// module in order of their numbers.
pub fn raise_bodies(
    alloc: Global,
    module: &Module,
    callees: &[Callee],
    program: &mut Program,
    depth: usize,
) -> Result<BodyRows, Refusal>
    ensures told { MakesOne (AreBodiesSaid module.now.methods) program.old program.new
        (bodies_told (given_by module.now callees.now) depth module.now.methods) result }
    ensures grows { Extends program.old program.new }
{
    let source = Source {
        body: Body {
            alloc,
            in_method: false,
        },
        parts: module,
        methods: callees,
    };
    let types = Vec::new(alloc);
    let (main, behind) = raise_body(&source, program, types, Ending::Main, depth, 0)?;
    let inside = Source {
        body: Body {
            alloc,
            in_method: true,
        },
        parts: module,
        methods: callees,
    };
    let methods = raise_methods(&inside, program, module.methods(), depth, behind)?;
    Ok(BodyRows { main, methods })
}
