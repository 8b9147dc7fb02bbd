//! What stands behind the name of one class: its members, in the order in which they were judged,
//! or the type of its elements (docs/language.md, "Headers").

ghost use Rattle.std.specs.Prelude.{◌≡◌, ◌≤◌, suc, [], ◌∷◌, ◌++◌, length, map, OnOk, IfOk};
ghost use Rattle.rg_tree.specs.declared.rows.MemberRow.TheVariants as member;
ghost use Rattle.rg_tree.specs.Rows.RowTrees.{member_at, member_of, class_of, program_of};
ghost use Rattle.rg_tree.specs.Rows.RowsExist.{IsMemberIn, IsClassIn};
ghost use Rattle.rg_tree.specs.Rows.Tables.{numbers_in};
ghost use Rattle.rg_rules.specs.Headers.{member_headers, rest_header};
ghost use Rattle.rg_names.specs.TableOf.{entry_of, entries_of, fields_with, methods_with};
ghost use Rattle.rg_names.specs.TableOf.{methods_with_all, rows_of, rows_in, element_of};
ghost use Rattle.rg_names.specs.Judged.{JudgedAs};
ghost use Rattle.rg_names.specs.Inner.Headings.{IsHeadsOf, AreNamed, names_behind, as_member};

use crate::by_name::ByName;
use crate::entry::{Entry, FieldAt, Sig};
use crate::headers::{element_type, field_type, signature};
use rg_base::{Cap, Stop, Ty};
use rg_tree::{ClassRow, MemberRow, MethodRow, Program, Span, TypeRow};
use std::alloc::Global;

/// Members of a class, with the number of fields among them and that of all methods so far.
#[derive(Drop)]
pub struct Found {
    pub entries: ByName<Entry>,
    pub fields: u32,
    pub methods: u32,
}

impl Found {
    /// No members, behind so many methods.
    pub fn new(alloc: Global, methods: u32) -> Found
        ensures entries { result.entries ≡ [] }
        ensures fields { result.fields ≡ 0 }
        ensures methods { result.methods ≡ methods }
    {
        Found {
            entries: ByName::new(alloc),
            fields: 0,
            methods,
        }
    }

    /// Adds a member whose header has no fault.
    pub fn add(
        &mut self,
        alloc: Global,
        program: &Program,
        heads: &ByName<bool>,
        class: ClassRow,
        row: MemberRow,
    ) -> Result<(), Stop>
        requires heads { IsHeadsOf program.now heads.now }
        requires row { IsMemberIn program.now row }
        requires named { AreNamed program.now self.old.entries }
        requires fields { self.old.fields ≤ length self.old.entries }

        ensures judged { JudgedAs (member_headers (program_of program.now).classes
            (class_of program.now class) (names_behind program.now self.old.entries)
            (member_of program.now row ∷ [])) result }
        ensures entries { OnOk result (self.new.entries ≡ self.old.entries
            ++ entry_of program.now self.old.fields self.old.methods row ∷ []) }
        ensures fields { OnOk result (self.new.fields ≡ fields_with self.old.fields row) }
        ensures methods { OnOk result (self.new.methods ≡ methods_with self.old.methods row) }
    {
        match row {
            MemberRow::Field { name, ty, line } => {
                self.add_field(program, heads, class, name, ty, line)
            },
            MemberRow::Method {
                cap,
                name,
                params,
                result,
                body,
                line,
            } => {
                let method = method_row(cap, name, params, result, body, line);
                self.add_method(alloc, program, heads, class, method)
            },
        }
    }

    // Adds a field whose header has no fault.
    fn add_field(
        &mut self,
        program: &Program,
        heads: &ByName<bool>,
        class: ClassRow,
        name: u32,
        ty: TypeRow,
        line: u64,
    ) -> Result<(), Stop>
        requires heads { IsHeadsOf program.now heads.now }
        requires row { IsMemberIn program.now (member.Field name ty line) }
        requires named { AreNamed program.now self.old.entries }
        requires fields { self.old.fields ≤ length self.old.entries }
        ensures judged { JudgedAs (member_headers (program_of program.now).classes
            (class_of program.now class) (names_behind program.now self.old.entries)
            (member_of program.now (member.Field name ty line) ∷ [])) result }
        ensures entries { OnOk result (self.new.entries ≡ self.old.entries ++ entry_of program.now
            self.old.fields self.old.methods (member.Field name ty line) ∷ []) }
        ensures fields { OnOk result (self.new.fields ≡ suc self.old.fields) }
        ensures methods { OnOk result (self.new.methods ≡ self.old.methods) }
    {
        self.entries.fresh(name, line)?;
        let ty = field_type(heads, class.is_tmp, ty, line)?;
        let index = self.fields;
        self.entries
            .push(name, Entry::Field(FieldAt { index, ty }))?;
        self.fields += 1;
        Ok(())
    }

    // Adds a method whose header has no fault.
    fn add_method(
        &mut self,
        alloc: Global,
        program: &Program,
        heads: &ByName<bool>,
        class: ClassRow,
        method: MethodRow,
    ) -> Result<(), Stop>
        requires heads { IsHeadsOf program.now heads.now }
        requires row { IsMemberIn program.now (as_member method) }
        requires named { AreNamed program.now self.old.entries }
        ensures judged { JudgedAs (member_headers (program_of program.now).classes
            (class_of program.now class) (names_behind program.now self.old.entries)
            (member_of program.now (as_member method) ∷ [])) result }
        ensures entries { OnOk result (self.new.entries ≡ self.old.entries
            ++ entry_of program.now self.old.fields self.old.methods (as_member method) ∷ []) }
        ensures fields { OnOk result (self.new.fields ≡ self.old.fields) }
        ensures methods { OnOk result (self.new.methods ≡ suc self.old.methods) }
    {
        self.entries.fresh(method.name, method.line)?;
        let result = signature(alloc, program, heads, class.is_tmp, method)?;
        if self.methods == u32::MAX {
            return Err(Stop::Memory);
        }
        let sig = Sig {
            number: self.methods,
            cap: method.cap,
            params: method.params,
            result,
        };
        self.entries.push(method.name, Entry::Method(sig))?;
        self.methods += 1;
        Ok(())
    }
}

// A method in one piece.
fn method_row(
    cap: Cap,
    name: u32,
    params: Span,
    ty: Option<TypeRow>,
    body: Span,
    line: u64,
) -> MethodRow
    ensures { as_member result ≡ member.Method cap name params ty body line }
{
    MethodRow {
        cap,
        name,
        params,
        result: ty,
        body,
        line,
    }
}

/// What stands behind the name of a class: its members, with the number of all methods so far, or
/// the type of its elements.
#[derive(Drop)]
pub struct Rest {
    pub element: Option<Ty>,
    pub entries: ByName<Entry>,
    pub methods: u32,
}

/// What stands behind the name of a class, behind so many methods.
pub fn class_rest(
    alloc: Global,
    program: &Program,
    heads: &ByName<bool>,
    class: ClassRow,
    methods: u32,
) -> Result<Rest, Stop>
    requires heads { IsHeadsOf program.now heads.now }
    requires class { IsClassIn program.now class }
    ensures judged { JudgedAs (rest_header (program_of program.now).classes
        (class_of program.now class) (class_of program.now class).element) result }
    ensures element { IfOk result (λ r. r.element ≡ element_of program.now class) }
    ensures entries { IfOk result
        (λ r. r.entries ≡ entries_of program.now 0 methods (rows_in program.now class)) }
    ensures methods { IfOk result
        (λ r. r.methods ≡ methods_with_all methods (rows_in program.now class)) }
{
    match class.element {
        None => {
            let found = class_entries(alloc, program, heads, class, methods)?;
            Ok(Rest {
                element: None,
                entries: found.entries,
                methods: found.methods,
            })
        },
        Some(row) => {
            let ty = element_type(heads, class.is_tmp, row, class.line)?;
            Ok(Rest {
                element: Some(ty),
                entries: ByName::new(alloc),
                methods,
            })
        },
    }
}

/// The members of a class, behind so many methods.
fn class_entries(
    alloc: Global,
    program: &Program,
    heads: &ByName<bool>,
    class: ClassRow,
    methods: u32,
) -> Result<Found, Stop>
    requires heads { IsHeadsOf program.now heads.now }
    requires class { IsClassIn program.now class }
    ensures judged { JudgedAs (member_headers (program_of program.now).classes
        (class_of program.now class) []
        (map (member_at program.now) (numbers_in program.now class.members))) result }
    ensures entries { IfOk result (λ f. f.entries ≡ entries_of program.now 0 methods
        (rows_of program.now (numbers_in program.now class.members))) }
    ensures methods { IfOk result (λ f. f.methods ≡ methods_with_all methods
        (rows_of program.now (numbers_in program.now class.members))) }
{
    let mut found = Found::new(alloc, methods);
    for k in program.order(class.members) {
        found.add(alloc, program, heads, class, program.member(*k))?;
    }
    Ok(found)
}
