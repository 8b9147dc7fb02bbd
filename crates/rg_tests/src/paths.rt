//! The names under which a caller finds what several crates do, each with what it gives for a
//! program and a plan whose answers are written down (docs/architecture.md, "Tests").

ghost use Rattle.std.specs.Prelude.{◌<◌, ℕ, List, IfOk, length};
ghost use Rattle.rg_tree.specs.Tree.{Tree};
ghost use Rattle.rg_tree.specs.Rows.RowTrees.{program_of};
ghost use Rattle.rg_code.specs.Code.{Code as CodeOf};
ghost use Rattle.rg_contents.specs.Read.{IsReadFor};
ghost use Rattle.rg_cown.specs.Cargo.{CargoList};
ghost use Rattle.rg_sched.specs.Running.{IsBehind};

use crate::modules::SEVEN;
use crate::programs::parsed;
use rg_base::{ByteList, Code, Fault, Label, Manager, Memory, Stop, Ty, Val};
use rg_check::{Accepted, check};
use rg_code::CodeList;
use rg_cown::{Cargo, CargoCell, Fields};
use rg_image::encode as image_of;
use rg_input::Numbers;
use rg_io::{MemFiles, MemSource};
use rg_loading::images_in;
use rg_lower::lower;
use rg_module::{Module, Shape, Tys, encode};
use rg_pace::Never;
use rg_sched::{Content, Phase, Plan, SchedStop, World, plan, run, world_text};
use rg_step::Given;
use rg_verify::{build, verify};
use std::alloc::Global;
use std::test::*;

/// The accepted program of a source.
pub(crate) fn accepted(alloc: Global, source: &[u8]) -> Result<Accepted, Stop> {
    let program = parsed(alloc, source)?;
    check(alloc, program)
}

// Whether the module of a program that prints 7 is `SEVEN`, which is raised.
fn is_seven(alloc: Global, accepted: &Accepted) -> Result<bool, Memory> {
    let code = lower(alloc, accepted)?;
    let module = build(alloc, accepted, &code)?;
    let bytes = encode(alloc, &module)?;
    Ok(bytes.bytes() == SEVEN.as_slice() && verify(alloc, &module).is_ok())
}

#[test]
fn a_program_has_its_module(rt: HostRuntime) -> Result<(), Fail> {
    let program = accepted(rt.alloc(), b"main arena { print 7; }")?;
    assert!(rt; matches!(is_seven(rt.alloc(), &program), Ok(true)));
    Ok(())
}

// A module whose one class, with a field of this type, has no opening in its code.
fn without_opening(alloc: Global, ty: Ty) -> Result<Module, Memory> {
    let mut fields = Tys::new(alloc);
    fields.push(ty)?;
    let mut module = Module::new(alloc, Manager::Arena, CodeList::new(alloc));
    module.add_class(Shape {
        is_tmp: false,
        fields,
        element: None,
    })?;
    Ok(module)
}

const UNVERIFIED: Fault = Fault {
    code: Code::Unverified,
    line: 0,
};

// Whether no program raises a module.
fn is_unverified(alloc: Global, module: &Module) -> bool {
    match verify(alloc, module) {
        Err(Stop::Fault(fault)) => fault == UNVERIFIED,
        Ok(_) | Err(Stop::Memory) => false,
    }
}

#[test]
fn a_module_that_no_bytes_spell_is_refused(rt: HostRuntime) -> Result<(), Fail> {
    let module = without_opening(rt.alloc(), Ty::Int)?;
    assert!(rt; is_unverified(rt.alloc(), &module));
    Ok(())
}

const ADDING: &[u8] = b"class N { v: int; }\n\
    class A { n: iso N; def mut add() { enter self.n as z { z.v = z.v + 1; print z.v; } } }\n\
    main arena { }\n";

const TWO: &[u8] = b"cown N arena\nwhen A.add 0\nwhen A.add 0\n";

// A plan for an accepted program, and a content for each cown.
#[derive(Drop)]
struct Planned {
    accepted: Accepted,
    plan: Plan,
    images: Vec<Cargo>,
}

// A plan for the program `ADDING`.
fn read_plan(alloc: Global, text: &[u8]) -> Result<Planned, Stop>
    ensures { IfOk result (λ two.
        IsReadFor (program_of two.accepted.program) two.plan two.images.items) }
{
    let accepted = accepted(alloc, ADDING)?;
    let plan = plan(alloc, text, &accepted)?;
    let Ok(images) = images_in(alloc, &mut MemFiles::new(alloc), &plan, &accepted) else {
        return Err(Stop::Memory);
    };
    Ok(Planned {
        accepted,
        plan,
        images,
    })
}

// The text of the world behind a schedule.
fn text_behind(alloc: Global, two: Planned, schedule: &[u8]) -> Result<ByteList, SchedStop>
    requires { IsReadFor (program_of two.accepted.program) two.plan two.images.items }
{
    let Planned {
        accepted,
        plan,
        images,
    } = two;
    let code = lower(alloc, &accepted)?;
    let mut source = MemSource::new(alloc);
    source.add(schedule)?;
    let mut numbers = Numbers::new();
    let world = run(
        alloc,
        &accepted,
        &code,
        &plan,
        images,
        &mut numbers,
        &mut source,
        &mut Never::new(),
        &mut Never::new(),
    )?;
    let text = world_text(alloc, &plan, &world)?;
    Ok(text)
}

// The text of the world of `TWO` behind a schedule.
fn two_behind(alloc: Global, schedule: &[u8]) -> Result<ByteList, SchedStop> {
    match read_plan(alloc, TWO) {
        Ok(two) => text_behind(alloc, two, schedule),
        Err(_) => Err(SchedStop::Memory),
    }
}

// Whether this is the text behind a schedule.
fn is_behind(alloc: Global, schedule: &[u8], text: &[u8]) -> bool {
    match two_behind(alloc, schedule) {
        Ok(found) => found.bytes() == text,
        Err(_) => false,
    }
}

#[test]
fn a_schedule_is_run(rt: HostRuntime) {
    assert!(rt;
        is_behind(
            rt.alloc(),
            b"0 1 0",
            b"behaviour 0 A.add running\nbehaviour 1 A.add waiting\n"
        )
    );
    assert!(rt;
        is_behind(
            rt.alloc(),
            b"0 1 0 0 0 0 0 0 1 1 1 1 1 1 1",
            b"behaviour 0 A.add done\n1\nbehaviour 1 A.add done\n2\n"
        )
    );
    assert!(rt;
        matches!(
            two_behind(rt.alloc(), b"0 2"),
            Err(SchedStop::Bad { item: 2 })
        )
    );
}

// The image of an N with 0, in an arena.
const ZERO: &[u8; 52] = b"RGI1\x01\
    \0\0\0\0\0\0\0\x01\0\
    \0\0\0\0\0\0\0\x01\
    \0\0\0\0\0\0\0\0\0\0\0\0\0\0\0\0\0\0\0\0\x01\x01\0\0\0\0\0\0\0\0";

// Whether this is the content that `ZERO` has.
fn is_zero(alloc: Global, content: Content<'_>) -> Result<bool, Memory> {
    match content {
        Content::Away | Content::Empty => Ok(false),
        Content::Held(cargo) => {
            let image = image_of(alloc, Some(cargo))?;
            Ok(image.bytes() == ZERO.as_slice())
        }
    }
}

// Whether the first behaviour of a world runs, with what the first cown had.
fn runs_with_it(plan: &Plan, world: &World) -> bool
    requires behaviours { 0 < length plan.now.behaviours }
    requires cowns { 0 < length plan.now.cowns }
    requires behind { (t : Tree) × (code : CodeOf) × (images : List CargoList)
        × (schedule : List ℕ) × IsBehind t code plan.now images schedule world.now }
{
    let is_running = matches!(world.state(0), Phase::Running) && world.turns(0) == 0;
    let is_away = matches!(world.content(0), Content::Away);
    is_running && is_away && world.began() == [0].as_slice()
}

// Whether what the first cown has is at rest until the first behaviour begins.
fn is_taken(alloc: Global, two: Planned) -> Result<bool, Memory>
    requires { IsReadFor (program_of two.accepted.program) two.plan two.images.items }
{
    let Planned {
        accepted,
        plan,
        images,
    } = two;
    if plan.cowns() == 0 || plan.behaviours() == 0 {
        return Ok(false);
    }
    let code = lower(alloc, &accepted)?;
    let first = World::begin(alloc, &accepted, &plan, images)?;
    let is_at_rest = is_zero(alloc, first.content(0))?;
    let world = first.event(
        alloc,
        &accepted,
        &code,
        &plan,
        0,
        &mut Never::new(),
        &mut Never::new(),
    )?;
    Ok(is_at_rest && runs_with_it(&plan, &world))
}

#[test]
fn a_behaviour_takes_what_its_cowns_have(rt: HostRuntime) -> Result<(), Fail> {
    let two = read_plan(rt.alloc(), TWO)?;
    assert!(rt; matches!(is_taken(rt.alloc(), two), Ok(true)));
    Ok(())
}

// With how many objects a field begins.
fn objects(given: &Given) -> usize {
    match given {
        Given::Start(_) => 0,
        Given::Held(cargo) => cargo.cells().len(),
    }
}

// An object of an array class without elements, alone in an arena.
fn alone(alloc: Global) -> Result<Cargo, Memory> {
    let mut cargo = Cargo::new(alloc);
    cargo.add_manager(Manager::Arena)?;
    cargo.add_cell(CargoCell {
        class: 0,
        label: Label::Region(0),
        fields: Fields::new(alloc),
    })?;
    Ok(cargo)
}

#[test]
fn a_field_begins_with_a_value_or_with_a_content(rt: HostRuntime) -> Result<(), Fail> {
    let content = Given::Held(alone(rt.alloc())?);
    assert!(rt; objects(&content) == 1 && objects(&Given::Start(Val::Int(7))) == 0);
    Ok(())
}
