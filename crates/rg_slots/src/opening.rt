//! With what cowns begin (docs/architecture.md, "Worlds").

ghost use Rattle.std.specs.Prelude.{◌≡◌, ◌<◌, All, IfOk, length, map};
ghost use Rattle.rg_tree.specs.Rows.RowTrees.{classes_of};
ghost use Rattle.rg_rules.specs.Types.{fields_of};
ghost use Rattle.rg_rules.specs.RightSides as rules;
ghost use Rattle.rg_plan.specs.declared.cown.Cown.{Cown as CownOf};
ghost use Rattle.rg_sched_atomic.specs.Contents.{Held as held};
ghost use Rattle.rg_sched_atomic.specs.Settings.{new_content, start_contents};

use crate::fields::opening_value;
use crate::slot::Slot;
use crate::slots::Slots;
use rg_base::{Label, Manager, Memory};
use rg_cown::{Cargo, CargoCell, Fields};
use rg_names::Book;
use rg_plan::{Plan, Start};
use rg_tree::MemberRow;
use std::alloc::Global;

impl Slots {
    /// With what the cowns of a plan begin: a new object, or the content of the image that a line
    /// names. There is a content for each cown in `images`, of which only those count.
    pub fn open(
        alloc: Global,
        book: &Book<'_>,
        plan: &Plan,
        images: Vec<Cargo>,
    ) -> Result<Slots, Memory>
        requires { All
            (λ (c : CownOf). c.class < length (classes_of book.now.program)) plan.now.cowns }
        ensures { IfOk result (λ slots. slots ≡ map held
            (start_contents (classes_of book.now.program) plan.now.cowns images.items)) }
    {
        let mut rest = images.into_iter();
        let mut slots = Vec::new(alloc);
        for n in 0..plan.cowns() {
            let cown = plan.cown(n);
            let Some(image) = rest.next() else {
                return Ok(Slots::new(slots));
            };
            let content = match &cown.start {
                Start::New(manager) => new_content(alloc, book, cown.class, *manager)?,
                Start::Image(_) => image,
            };
            let Ok(()) = slots.push(Slot::Held(content)) else {
                return Err(Memory);
            };
        }
        Ok(Slots::new(slots))
    }
}

// A new object of a class, alone in a closed region with a manager.
fn new_content(
    alloc: Global,
    book: &Book<'_>,
    class: u32,
    manager: Manager,
) -> Result<Cargo, Memory>
    requires { class < length (classes_of book.now.program) }
    ensures { IfOk result (λ c. c ≡ new_content (classes_of book.now.program) class manager) }
{
    let fields = opening_fields(alloc, book, class)?;
    let mut cargo = Cargo::new(alloc);
    cargo.add_cell(CargoCell {
        class,
        label: Label::Region(0),
        fields,
    })?;
    cargo.add_manager(manager)?;
    Ok(cargo)
}

// The values with which the fields of a class start.
fn opening_fields(alloc: Global, book: &Book<'_>, class: u32) -> Result<Fields, Memory>
    requires { class < length (classes_of book.now.program) }
    ensures { IfOk result (λ vs. vs ≡ map (λ f. rules.opening_value f.ty)
        (fields_of (classes_of book.now.program) class)) }
{
    let mut values = Fields::new(alloc);
    let members = book.members_of(book.class(class));
    for k in members {
        match book.member(*k) {
            MemberRow::Field { ty, .. } => values.push(opening_value(ty))?,
            MemberRow::Method { .. } => {}
        }
    }
    Ok(values)
}
