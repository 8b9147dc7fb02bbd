//! All headers in source order: first the names of the classes, then what stands behind them
//! (docs/language.md, "Headers").

ghost use Rattle.std.specs.Prelude.{◌≡◌, [], map, IfOk};
ghost use Rattle.rg_tree.specs.Rows.RowTrees.{program_of};
ghost use Rattle.rg_rules.specs.Headers.{class_names, class_members};
ghost use Rattle.rg_names.specs.TableOf.{members_of, element_of};
ghost use Rattle.rg_names.specs.Judged.{JudgedAs};
ghost use Rattle.rg_names.specs.Inner.Headings.{IsHeadsOf};

use crate::by_name::ByName;
use crate::entry::Entry;
use crate::found::class_rest;
use rg_base::{Stop, Ty};
use rg_tree::Program;
use std::alloc::Global;

/// The names of the classes, each with whether it is a tmp class.
pub fn heads(alloc: Global, program: &Program) -> Result<ByName<bool>, Stop>
    ensures judged { JudgedAs (class_names [] (program_of program.now).classes) result }
    ensures heads { IfOk result (IsHeadsOf program.now) }
{
    let mut heads = ByName::new(alloc);
    for i in 0..program.class_count() {
        let class = program.class(i);
        heads.fresh(class.name, class.line)?;
        heads.push(class.name, class.is_tmp)?;
    }
    Ok(heads)
}

/// The members of each class, and the type of its elements, which only an array class has.
#[derive(Drop)]
pub struct Rests {
    pub members: Vec<ByName<Entry>>,
    pub elements: Vec<Option<Ty>>,
}

/// What stands behind the name of each class.
pub fn all_rests(alloc: Global, program: &Program, heads: &ByName<bool>) -> Result<Rests, Stop>
    requires { IsHeadsOf program.now heads.now }
    ensures judged { JudgedAs (class_members (program_of program.now).classes
        (program_of program.now).classes) result }
    ensures members { IfOk result
        (λ r. r.members.items ≡ members_of program.now 0 program.now.classes) }
    ensures elements { IfOk result
        (λ r. r.elements.items ≡ map (element_of program.now) program.now.classes) }
{
    let mut members = Vec::new(alloc);
    let mut elements = Vec::new(alloc);
    let mut methods = 0;
    for i in 0..program.class_count() {
        let found = class_rest(alloc, program, heads, program.class(i), methods)?;
        methods = found.methods;
        match elements.push(found.element) {
            Ok(()) => {},
            Err(_) => return Err(Stop::Memory),
        }
        match members.push(found.entries) {
            Ok(()) => {},
            Err(_) => return Err(Stop::Memory),
        }
    }
    Ok(Rests { members, elements })
}
