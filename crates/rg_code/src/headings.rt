//! The headings of a listing: the name of each method, where its code begins
//! (docs/language.md, "Instructions and lowering").

ghost use Rattle.std.specs.Prelude.{◌≡◌, ◌<◌, ◌∷◌, [], length, map, IfOk, OnOk};
ghost use Rattle.rg_tree.specs.Rows.RowTrees.{class_of, classes_of, member_at};
ghost use Rattle.rg_tree.specs.Rows.RowsExist.{IsClassIn, IsNameIn};
ghost use Rattle.rg_tree.specs.Rows.Tables.{name_at};
ghost use Rattle.rg_code.specs.Listing as texts;
ghost use Rattle.rg_code.specs.Inner.Headings.{shown, full_name, with_headings};

use crate::code::Entry;
use rg_base::Memory;
use rg_tree::{ClassRow, MemberRow, Program};
use std::alloc::Global;

/// A heading: the address of a method's first instruction, and the names that stand there.
#[derive(Clone, Copy)]
pub struct Heading<'a> {
    pub at: usize,
    pub class: &'a [u8],
    pub method: &'a [u8],
}

/// The headings of all methods in order.
pub fn headings<'a>(
    alloc: Global,
    program: &'a Program,
    entries: &[Entry],
) -> Result<Vec<Heading<'a>>, Memory>
    ensures { IfOk result (λ all. map shown all.items
        ≡ texts.headings entries.now (texts.method_names (classes_of program.now))) }
{
    let mut all = Vec::new(alloc);
    for i in 0..program.class_count() {
        add_class(program, program.class(i), entries, &mut all)?;
    }
    Ok(all)
}

// Appends the headings of the methods of a class.
fn add_class<'a>(
    program: &'a Program,
    class: ClassRow,
    entries: &[Entry],
    all: &mut Vec<Heading<'a>>,
) -> Result<(), Memory>
    requires { IsClassIn program.now class }
    ensures { OnOk result (let c = class_of program.now class in map shown all.new.items
        ≡ with_headings entries.now (map shown all.old.items)
        (texts.member_names c.name c.members)) }
{
    for member in program.members_of(class) {
        add_member(program, class.name, *member, entries, all)?;
    }
    Ok(())
}

// Appends the heading of a member of the class of a name, if it is a method.
fn add_member<'a>(
    program: &'a Program,
    class: u32,
    member: u32,
    entries: &[Entry],
    all: &mut Vec<Heading<'a>>,
) -> Result<(), Memory>
    requires class { IsNameIn program.now class }
    requires member { member < length program.now.members }
    ensures { OnOk result (let t = program.now in map shown all.new.items
        ≡ with_headings entries.now (map shown all.old.items)
        (texts.member_names (name_at t class) (member_at t member ∷ []))) }
{
    match program.member(member) {
        MemberRow::Field { .. } => Ok(()),
        MemberRow::Method { name, .. } => {
            add_heading(program.name(class), program.name(name), entries, all)
        }
    }
}

// Appends the heading of the next method, if it has an entry.
fn add_heading<'a>(
    class: &'a [u8],
    method: &'a [u8],
    entries: &[Entry],
    all: &mut Vec<Heading<'a>>,
) -> Result<(), Memory>
    ensures { OnOk result (map shown all.new.items
        ≡ with_headings entries.now (map shown all.old.items)
        (full_name class.now method.now ∷ [])) }
{
    let Some(entry) = entries.get(all.len()) else {
        return Ok(());
    };
    let heading = Heading {
        at: entry.at,
        class,
        method,
    };
    match all.push(heading) {
        Ok(()) => Ok(()),
        Err(_) => Err(Memory),
    }
}
