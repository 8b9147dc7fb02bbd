//! The methods of a module, as calls need them (docs/architecture.md, "Modules").

ghost use Rattle.std.specs.Prelude.{◌≡◌, ◌==◌, ◌&&◌, ◌≤◌, length, slice_get};
ghost use Rattle.rg_base.specs.declared.limits.TheConstants.{CLASSES};
ghost use Rattle.rg_classes.specs.Order as order;
ghost use Rattle.rg_classes.specs.Order.{FindsCallees, NumbersCallees};

use rg_base::{CLASS_FIELDS, CLASS_METHODS, CLASSES, PARAMETERS};
use rg_spell::{Head, Shape};
use rg_verify_expressions::{Callee, Refusal};
use std::alloc::Global;

// Whether the class of a number takes methods.
fn takes_methods(shapes: &[Shape], class: u32) -> bool
    ensures { result ≡ order.takes_methods (slice_get shapes.now class) }
{
    match shapes.get(class as usize) {
        None => false,
        Some(shape) => match shape.element {
            None => true,
            Some(_) => false,
        },
    }
}

// The number in its class of a method of a class, behind so many methods of the class before.
fn place_of(before: u32, place: u32, class: u32) -> u32
    ensures { result ≡ order.place_of before place class }
{
    if class == before { place } else { 0 }
}

// Whether a method may come next.
fn may_follow(shapes: &[Shape], before: u32, place: u32, head: &Head) -> bool
    ensures { result ≡ order.may_follow shapes.now before place head.now }
{
    before <= head.class
        && takes_methods(shapes, head.class)
        && (place as usize) < CLASS_METHODS
        && head.params.items().len() <= PARAMETERS
}

// Whether no class has more fields than it may.
fn have_few_fields(shapes: &[Shape]) -> bool
    ensures { result ≡ order.have_few_fields shapes.now }
{
    for shape in shapes {
        if shape.fields.items().len() > CLASS_FIELDS {
            return false;
        }
    }
    true
}

// The methods of classes of which there are no more than may be.
fn number_callees(alloc: Global, shapes: &[Shape], heads: &[Head]) -> Result<Vec<Callee>, Refusal>
    requires { length shapes.now ≤ CLASSES }
    ensures { NumbersCallees shapes.now heads.now result }
{
    let mut callees = Vec::new(alloc);
    let mut before = 0;
    let mut next = 0;
    for head in heads {
        let place = place_of(before, next, head.class);
        if !may_follow(shapes, before, place, head) {
            return Err(Refusal::NotRaised);
        }
        let number = callees.len() as u32;
        let Ok(()) = callees.push(Callee {
            number,
            place,
            result: head.result,
        }) else {
            return Err(Refusal::Memory);
        };
        before = head.class;
        next = place + 1;
    }
    Ok(callees)
}

/// The methods of a module in order of their numbers; or its tables are of no program within the
/// limits: a class has too many fields or methods, there are too many classes, a method has too
/// many parameters, is of no class or of an array class, or comes behind one of a later class.
pub fn find_callees(alloc: Global, shapes: &[Shape], heads: &[Head]) -> Result<Vec<Callee>, Refusal>
    ensures { FindsCallees shapes.now heads.now result }
{
    if shapes.len() > CLASSES {
        return Err(Refusal::NotRaised);
    }
    if !have_few_fields(shapes) {
        return Err(Refusal::NotRaised);
    }
    number_callees(alloc, shapes, heads)
}
