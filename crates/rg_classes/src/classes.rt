//! Classes of a raised program, as rows (docs/architecture.md, "Modules").

ghost use Rattle.std.specs.Prelude.{◌≡◌, ◌+◌, ◌<◌, ◌^◌, ℕ, List, ◌∷◌, [], ◌++◌, length, drop};
ghost use Rattle.std.specs.Prelude.{All, IfOk, OnOk, Some, slice_get};
ghost use Rattle.rg_tree.specs.Tree as tree;
ghost use Rattle.rg_tree.specs.Adds.{Extends};
ghost use Rattle.rg_tree.specs.Keeps.{Keeps};
ghost use Rattle.rg_spell.specs.declared.rows.Shape.{Shape as OneShape};
ghost use Rattle.rg_classes.specs.Written.{Bodied, methods_written, run};
ghost use Rattle.rg_classes.specs.Written.{class_written, classes_written};
ghost use Rattle.rg_classes.specs.Rows.{AreBodies, AreMembers, AreMethods, AddsClasses};

use crate::body_row::BodyRow;
use crate::members::{add_fields, add_method, result_row};
use rg_base::Memory;
use rg_spell::{Head, Shape};
use rg_tree::{ClassRow, Program};
use rg_verify_expressions::add_name;
use std::alloc::Global;

/// Methods in order of their classes, with their bodies as rows.
#[derive(Clone, Copy)]
pub struct Methods<'a> {
    pub heads: &'a [Head],
    pub bodies: &'a [BodyRow],
}

// The head at a place.
fn head_at(heads: &[Head], at: usize) -> &Head
    requires { at < length heads.now }
    ensures { slice_get heads.now at ≡ Some result.now }
{
    &heads[at]
}

// The body at a place.
fn body_at(bodies: &[BodyRow], at: usize) -> BodyRow
    requires { at < length bodies.now }
    ensures { slice_get bodies.now at ≡ Some result }
{
    bodies[at]
}

// Adds the methods of a class that come next, and their numbers to those of members; answers where
// the methods of the next class begin.
fn add_methods(
    alloc: Global,
    program: &mut Program,
    methods: &Methods<'_>,
    class: u32,
    next: usize,
    members: &mut Vec<u32>,
) -> Result<usize, Memory>
    requires { AreMethods program.old methods.now.heads.now methods.now.bodies.now }
    ensures adds { (bs : List Bodied) (ms : List tree.Member) →
        AreBodies program.old methods.now.bodies.now bs →
        AreMembers program.old members.old.items ms →
        OnOk result (AreMembers program.new members.new.items
        (ms ++ methods_written class 0 (drop next methods.now.heads.now) (drop next bs))) }
    ensures behind { IfOk result (λ n. n ≡ next + run class (drop next methods.now.heads.now)) }
    ensures grows { Extends program.old program.new }
{
    let mut k = 0;
    let mut at = next;
    while at < methods.heads.len() {
        let head = head_at(methods.heads, at);
        if head.class != class {
            return Ok(at);
        }
        let body = body_at(methods.bodies, at);
        let number = add_method(alloc, program, k, head, body)?;
        let Ok(()) = members.push(number) else {
            return Err(Memory);
        };
        k += 1;
        at += 1;
    }
    Ok(at)
}

// Adds a class with its fields and the methods of it that come next; answers where the methods of
// the next class begin.
fn add_class(
    alloc: Global,
    program: &mut Program,
    methods: &Methods<'_>,
    class: u32,
    shape: &Shape,
    next: usize,
) -> Result<usize, Memory>
    requires methods { AreMethods program.old methods.now.heads.now methods.now.bodies.now }
    requires fields { length shape.now.fields < 2 ^ 32 }
    ensures adds { (bs : List Bodied) → AreBodies program.old methods.now.bodies.now bs →
        OnOk result (AddsClasses program.old program.new (class_written class shape.now
        (methods_written class 0 (drop next methods.now.heads.now) (drop next bs)) ∷ [])) }
    ensures keeps { OnOk result (Keeps program.old program.new) }
    ensures behind { IfOk result (λ n. n ≡ next + run class (drop next methods.now.heads.now)) }
{
    let name = add_name(alloc, program, b'c', class)?;
    let element = result_row(alloc, program, shape.element)?;
    let mut numbers = Vec::new(alloc);
    add_fields(alloc, program, shape.fields.items(), &mut numbers)?;
    let behind = add_methods(alloc, program, methods, class, next, &mut numbers)?;
    let members = program.add_order(numbers.as_slice())?;
    let _number = program.add_class(ClassRow {
        name,
        is_tmp: shape.is_tmp,
        element,
        members,
        line: 0,
    })?;
    Ok(behind)
}

/// Adds classes with the methods of a module, which are in order of their classes, behind the
/// classes that are there.
pub fn add_classes(
    alloc: Global,
    program: &mut Program,
    shapes: &[Shape],
    methods: &Methods<'_>,
) -> Result<(), Memory>
    requires methods { AreMethods program.old methods.now.heads.now methods.now.bodies.now }
    requires few { length shapes.now < 2 ^ 32 }
    requires fields { All (λ (s : OneShape). length s.fields < 2 ^ 32) shapes.now }
    ensures { (bs : List Bodied) → AreBodies program.old methods.now.bodies.now bs →
        OnOk result (AddsClasses program.old program.new
        (classes_written 0 shapes.now methods.now.heads.now bs)) }
{
    let mut class = 0;
    let mut next = 0;
    for shape in shapes {
        next = add_class(alloc, program, methods, class, shape, next)?;
        class += 1;
    }
    Ok(())
}
