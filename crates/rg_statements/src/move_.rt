//! The steps of `freeze y` and `merge y` (docs/language.md, "Steps").

ghost use Rattle.std.specs.Prelude.{◌<◌, ◌∷◌, ◌≡◌, [], IfOk, List, Some, length};
ghost use Rattle.std.specs.Prelude.{ℕ};
ghost use Rattle.rg_tree.specs.Rows.RowTrees.{classes_of};
ghost use Rattle.rg_tree.specs.Rows.RowsExist.{IsNameIn};
ghost use Rattle.rg_tree.specs.Rows.Tables.{Tables};
ghost use Rattle.rg_rules.specs.Regions.{beneath};
ghost use Rattle.rg_store.specs.Regions.{AreMarked, AreRegions, LabelFits};
ghost use Rattle.rg_values.specs.Fits.{PartsFit};
ghost use Rattle.rg_statements.specs.Assignments.{AssignStands};
ghost use Rattle.rg_statements.specs.Inner.Moves.{HeldIs, carried, label_of, regions_with};
ghost use Rattle.rg_statements.specs.Inner.Moves.{right_of};
ghost use Rattle.rg_values.specs.Rooms.{HasRoom};
ghost use Rattle.rg_values.specs.Spots.{AimFits};
ghost use Rattle.rg_values.specs.Steps.{Makes};
ghost use Rattle.rg_values.specs.Kept.{kept_of, plain_of};

use rg_base::{Label, Memory, Trap, Val};
use rg_names::Book;
use rg_store::{Regions, beneath, object_place, region_at, relabel};
use rg_values::{Aim, Assignment, Parts, Refusal, advance, aim_of, make_room, put, set, variable};
use std::alloc::Global;

/// How regions are moved.
#[derive(Clone, Copy)]
pub enum Move {
    /// `freeze y`: the region of an object, and all beneath it, are frozen
    Freeze,
    /// `merge y`: the objects of that region go to the active one
    Merge,
}

/// What a variable holds, and the region in which that lies.
#[derive(Clone, Copy)]
pub(crate) struct Held {
    pub(crate) value: Val,
    pub(crate) region: Option<u64>,
}

/// What a variable holds; following nil traps.
fn value_held(book: &Book, m: &Parts, name: u32) -> Result<Held, Trap>
    requires fit { PartsFit book.now.program m.now }
    requires name { IsNameIn book.now.program name }
    ensures { HeldIs book.now.program (kept_of m.now) name result }
{
    let value = variable(book, &m.frame.locals, Some(name));
    let place = object_place(&m.store, value)?;
    Ok(Held {
        value,
        region: region_at(&m.store, place),
    })
}

/// A mark for each region beneath one, and for that itself.
fn marks_beneath(alloc: Global, book: &Book, m: &Parts, region: u64) -> Result<Vec<bool>, Memory>
    requires fit { PartsFit book.now.program m.now }
    requires made { region < length m.now.managers.items }
    ensures { IfOk result (λ marks. let k = kept_of m.now in AreMarked marks.items
        (beneath (classes_of book.now.program) k.store (length k.managers) (region ∷ []))) }
{
    beneath(alloc, book, &m.store, m.managers.len(), region)
}

/// The regions that move with a region.
fn regions_with(
    alloc: Global,
    book: &Book,
    m: &Parts,
    how: Move,
    region: u64,
) -> Result<Regions, Memory>
    requires fit { PartsFit book.now.program m.now }
    requires made { region < length m.now.managers.items }
    ensures { IfOk result (λ regions. let k = kept_of m.now in AreRegions regions (regions_with
        (classes_of book.now.program) k.store (length k.managers) how region)) }
{
    match how {
        Move::Freeze => {
            let marks = marks_beneath(alloc, book, m, region)?;
            Ok(Regions::Marked(marks))
        }
        Move::Merge => Ok(Regions::One(region)),
    }
}

/// What objects become that are moved.
fn new_label(m: &Parts, how: Move) -> Label
    requires made { m.now.window.region < length m.now.managers.items }
    ensures label { (t : Tables) (input : List ℕ) →
        result ≡ label_of (plain_of t (kept_of m.now) input).windows how }
    ensures made { LabelFits (length m.now.managers.items) result }
{
    match how {
        Move::Freeze => Label::Frozen,
        Move::Merge => Label::Region(m.window.region),
    }
}

/// A value, and the variable out of which it is taken.
#[derive(Clone, Copy)]
struct Taken {
    name: u32,
    value: Val,
}

/// Gives the objects of regions another label, and takes a value out of its variable to where it
/// goes.
fn carry(book: &Book, m: &mut Parts, regions: &Regions, label: Label, taken: Taken, aim: Aim)
    requires fit { PartsFit book.now.program m.old }
    requires regions { (these : List ℕ) × AreRegions regions.now these }
    requires label { LabelFits (length m.old.managers.items) label }
    requires aim { AimFits book.now.program (length m.old.store.items) aim }
    requires room { HasRoom m.old aim }
    requires name { IsNameIn book.now.program taken.name }
    ensures carried { (input : List ℕ) (these : List ℕ) → AreRegions regions.now these → plain_of
        book.now.program (kept_of m.new) input ≡ carried book.now.program aim taken.name (plain_of
        book.now.program (kept_of m.old) input) these label taken.value }
    ensures fit { PartsFit book.now.program m.new }
{
    relabel(&mut m.store, regions, label);
    set(book, &mut m.frame.locals, Some(taken.name), Val::Nil);
    put(book, m, aim, taken.value);
}

/// Moves the region of an object out of a variable. Where it lies in none, nothing changes.
pub(crate) fn move_step(
    alloc: Global,
    book: &Book,
    m: &mut Parts,
    to: Assignment,
    name: u32,
    how: Move,
) -> Result<(), Refusal>
    requires assigns { AssignStands book.now.program m.old to
        (right_of book.now.program name how) }
    requires name { IsNameIn book.now.program name }
    ensures step { Makes book.now.program (kept_of m.old) (kept_of m.new) to.at.line result }
    ensures fit { PartsFit book.now.program m.new }
{
    let aim = aim_of(book, m, to.left)?;
    let held = value_held(book, m, name)?;
    let Some(region) = held.region else {
        advance(book, &mut m.items, to.at.span, to.at.number);
        return Ok(());
    };
    make_room(book, m, aim)?;
    let regions = regions_with(alloc, book, m, how, region)?;
    let label = new_label(m, how);
    advance(book, &mut m.items, to.at.span, to.at.number);
    let taken = Taken {
        name,
        value: held.value,
    };
    carry(book, m, &regions, label, taken, aim);
    Ok(())
}
