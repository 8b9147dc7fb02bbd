//! The classes of a program, whose headers have no fault (docs/language.md, "Headers").

ghost use Rattle.std.specs.Prelude.{◌≡◌, ◌<◌, length, option_map, slice_get, Some, IfOk, IfSome};
ghost use Rattle.rg_tree.specs.Rows.Tables.{Tables, name_at};
ghost use Rattle.rg_tree.specs.Rows.RowTrees.{type_of, program_of};
ghost use Rattle.rg_tree.specs.Rows.RowsExist.{IsNameIn, IsTypeIn};
ghost use Rattle.rg_rules.specs.Types.{element_type, good_type};
ghost use Rattle.rg_rules.specs.Headers.{judge_headers};
ghost use Rattle.rg_names.specs.Table.{values_of, IsClass, class_in, entry_in, field_in, method_in};
ghost use Rattle.rg_names.specs.Table.{element_in, judge_type};
ghost use Rattle.rg_names.specs.TableOf.{IsTableOf};
ghost use Rattle.rg_names.specs.Judged.{JudgedAs};
ghost use Rattle.rg_names.specs.TreeAnswers.{class_place, IsKnown, FieldAnswer, MethodAnswer};

use crate::build::{all_rests, heads};
use crate::by_name::ByName;
use crate::entry::{Entry, FieldAt, Sig};
use crate::headers::type_named;
use rg_base::{Code, Stop, Ty};
use rg_tree::{Program, TypeRow};
use std::alloc::Global;
use std::marker::Model;

/// The class table of a program. Contracts see lists of numbers and types, which `IsTableOf` ties
/// to a program; then each answer is that of the program's tree.
#[derive(Drop)]
pub struct Classes {
    heads: ByName<bool>,
    members: Vec<ByName<Entry>>,
    elements: Vec<Option<Ty>>,
}

impl Model for Classes {
    ghost use Rattle.std.specs.Prelude.{◌≡◌, length};
    ghost use Rattle.rg_names.specs.Table.{Table};

    ghost Value = { Table };

    ghost view = { λ c. record {
      heads = c.heads;
      members = c.members.items;
      elements = c.elements.items;
    } };

    ghost invariant = { λ c. (length c.members.items ≡ length c.heads)
        × (length c.elements.items ≡ length c.heads) };
}

impl Classes {
    /// The table of a program, or the first fault of its headers: E20, E21 or E22.
    pub fn of(alloc: Global, program: &Program) -> Result<Classes, Stop>
        ensures judged { JudgedAs (judge_headers (program_of program.now).classes) result }
        ensures table { IfOk result (IsTableOf program.now) }
    {
        let heads = heads(alloc, program)?;
        let rests = all_rests(alloc, program, &heads)?;
        Ok(Classes {
            heads,
            members: rests.members,
            elements: rests.elements,
        })
    }

    /// The number of the class of a name, None exactly where there is none.
    pub fn class(&self, name: u32) -> Option<u32>
        ensures table { result ≡ class_in self.now name }
        ensures within { IfSome result (IsClass self.now) }
        ensures tree { (program : Tables) → IsTableOf program self.now → IsNameIn program name
            → result ≡ class_place (program_of program).classes (name_at program name) }
    {
        self.heads.place(name)
    }

    /// Whether a class is a tmp class.
    pub fn is_tmp(&self, class: u32) -> bool
        requires { IsClass self.now class }
        ensures table { slice_get (values_of self.now.heads) class ≡ Some result }
        ensures tree { (program : Tables) → IsTableOf program self.now
            → option_map (λ c. c.is_tmp) (slice_get (program_of program).classes class)
            ≡ Some result }
    {
        self.heads.at(class)
    }

    /// The type of the elements of a class, None exactly for a class that isn't an array class.
    pub fn element(&self, class: u32) -> Option<Ty>
        requires { IsClass self.now class }
        ensures table { result ≡ element_in self.now class }
        ensures tree { (program : Tables) → IsTableOf program self.now
            → result ≡ element_type (program_of program).classes class }
        ensures known { (program : Tables) → IsTableOf program self.now
            → IfSome result (IsKnown (program_of program).classes) }
    {
        self.elements_of(class)
    }

    // The type of the elements of a class, by the table alone.
    fn elements_of(&self, class: u32) -> Option<Ty>
        requires { IsClass self.now class }
        ensures { result ≡ element_in self.now class }
    {
        let elements = &self.elements[class as usize];
        *elements
    }

    /// The field of a name in a class, None exactly where there is none.
    pub fn field(&self, class: u32, name: u32) -> Option<FieldAt>
        requires { IsClass self.now class }
        ensures table { result ≡ field_in self.now class name }
        ensures tree { (program : Tables) → IsTableOf program self.now → IsNameIn program name
            → FieldAnswer program class name result }
    {
        match self.entry(class, name) {
            Some(Entry::Field(field)) => Some(field),
            Some(Entry::Method(_)) => None,
            None => None,
        }
    }

    /// The method of a name in a class, None exactly where there is none.
    pub fn method(&self, class: u32, name: u32) -> Option<Sig>
        requires { IsClass self.now class }
        ensures table { result ≡ method_in self.now class name }
        ensures tree { (program : Tables) → IsTableOf program self.now → IsNameIn program name
            → MethodAnswer program class name result }
    {
        match self.entry(class, name) {
            Some(Entry::Field(_)) => None,
            Some(Entry::Method(sig)) => Some(sig),
            None => None,
        }
    }

    // The member of a name in a class.
    fn entry(&self, class: u32, name: u32) -> Option<Entry>
        requires { IsClass self.now class }
        ensures { result ≡ entry_in self.now class name }
    {
        let members = &self.members[class as usize];
        members.get(name)
    }

    /// The type that is written so, or E20 or E22.
    pub fn ty(&self, row: TypeRow) -> Result<Ty, Code>
        ensures table { result ≡ judge_type self.now.heads row }
        ensures tree { (program : Tables) → IsTableOf program self.now → IsTypeIn program row
            → result ≡ good_type (program_of program).classes (type_of program row) }
        ensures known { (program : Tables) → IsTableOf program self.now → IsTypeIn program row
            → IfOk result (IsKnown (program_of program).classes) }
    {
        type_named(&self.heads, row)
    }
}
