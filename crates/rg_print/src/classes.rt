//! Classes with their fields and methods (docs/language.md, "Canonical text").

ghost use Rattle.std.specs.Prelude.{◌≡◌, ℕ, ◌<◌, [], ◌++◌, codes, length, map, option_map, OnOk};
ghost use Rattle.std.specs.Prelude.{Some, None, IfSome};
ghost use Rattle.rg_base.specs.declared.words.Cap.{Cap};
ghost use Rattle.rg_tree.specs.Canonical.{cap_text, class_text, joined, member_text, param_texts};
ghost use Rattle.rg_tree.specs.Canonical.{rest_text, result_text, ty_text};
ghost use Rattle.rg_tree.specs.Rows.RowTrees.{class_of, member_at, members_under, param_at};
ghost use Rattle.rg_tree.specs.Rows.RowTrees.{type_of};
ghost use Rattle.rg_tree.specs.Rows.RowsExist.{IsClassIn, IsNameIn, IsSpanBelow, IsTypeIn};
ghost use Rattle.rg_tree.specs.Rows.Tables.{name_at, numbers_in};

use crate::lines::{close_block, indent};
use crate::names::{write_name, write_type};
use crate::statements::write_block;
use crate::words::{cap_bytes, class_bytes};
use rg_base::{ByteList, Cap, Memory};
use rg_tree::{ClassRow, MemberRow, Program, Span, TypeRow};

/// Appends the lines of a class.
pub fn write_class(program: &Program, class: ClassRow, out: &mut ByteList) -> Result<(), Memory>
    requires { IsClassIn program.now class }
    ensures { OnOk result (out.new ≡ out.old ++ class_text (class_of program.now class)) }
{
    out.extend(class_bytes(class.is_tmp))?;
    write_name(program, class.name, out)?;
    match class.element {
        None => write_members(program, class.members, out),
        Some(element) => write_element(program, element, out),
    }
}

// Appends members in braces, each on lines of its own.
fn write_members(program: &Program, members: Span, out: &mut ByteList) -> Result<(), Memory>
    requires { IsSpanBelow program.now (length program.now.members) members }
    ensures { OnOk result (out.new
        ≡ out.old ++ rest_text None (members_under program.now None members)) }
{
    out.extend(b" {\n")?;
    for member in program.order(members) {
        write_member(program, *member, out)?;
    }
    out.extend(b"}\n")
}

// Appends the type of the elements of an array class, in brackets.
fn write_element(program: &Program, element: TypeRow, out: &mut ByteList) -> Result<(), Memory>
    requires { IsTypeIn program.now element }
    ensures { OnOk result (out.new
        ≡ out.old ++ rest_text (Some (type_of program.now element)) []) }
{
    out.extend(b" [")?;
    write_type(program, element, out)?;
    out.extend(b"];\n")
}

// Appends the lines of a member.
fn write_member(program: &Program, member: u32, out: &mut ByteList) -> Result<(), Memory>
    requires { member < length program.now.members }
    ensures { OnOk result (out.new ≡ out.old ++ member_text (member_at program.now member)) }
{
    indent(1, out)?;
    match program.member(member) {
        MemberRow::Field { name, ty, .. } => {
            write_typed(program, name, ty, out)?;
            out.extend(b";\n")
        }
        MemberRow::Method {
            cap,
            name,
            params,
            result,
            body,
            ..
        } => {
            write_head(program, cap, name, params, out)?;
            write_result(program, result, out)?;
            write_block(program, body, 1, out)?;
            close_block(1, out)
        }
    }
}

// Appends a name with its type.
fn write_typed(program: &Program, name: u32, ty: TypeRow, out: &mut ByteList) -> Result<(), Memory>
    requires name { IsNameIn program.now name }
    requires ty { IsTypeIn program.now ty }
    ensures { OnOk result (let t = program.now in
        out.new ≡ out.old ++ (name_at t name ++ codes ": " ++ ty_text (type_of t ty))) }
{
    write_name(program, name, out)?;
    out.extend(b": ")?;
    write_type(program, ty, out)
}

// Appends the head of a method up to its result.
fn write_head(
    program: &Program,
    cap: Cap,
    name: u32,
    params: Span,
    out: &mut ByteList,
) -> Result<(), Memory>
    requires name { IsNameIn program.now name }
    requires params { IsSpanBelow program.now (length program.now.params) params }
    ensures { OnOk result (let t = program.now in out.new ≡ out.old
        ++ (codes "def " ++ cap_text cap ++ codes " " ++ name_at t name ++ codes "("
        ++ joined (param_texts (map (param_at t) (numbers_in t params))) ++ codes ")")) }
{
    out.extend(b"def ")?;
    out.extend(cap_bytes(cap))?;
    out.extend(b" ")?;
    write_name(program, name, out)?;
    write_params(program, params, out)
}

// Appends parameters in parentheses, with a comma and one blank between.
fn write_params(program: &Program, params: Span, out: &mut ByteList) -> Result<(), Memory>
    requires { IsSpanBelow program.now (length program.now.params) params }
    ensures { OnOk result (let t = program.now in out.new ≡ out.old
        ++ codes "("
        ++ joined (param_texts (map (param_at t) (numbers_in t params))) ++ codes ")") }
{
    out.extend(b"(")?;
    for (i, param) in program.order(params).iter().enumerate() {
        if i > 0 {
            out.extend(b", ")?;
        }
        let row = program.param(*param);
        write_typed(program, row.name, row.ty, out)?;
    }
    out.extend(b")")
}

// Appends the result of a method.
fn write_result(
    program: &Program,
    result_type: Option<TypeRow>,
    out: &mut ByteList,
) -> Result<(), Memory>
    requires { IfSome result_type (IsTypeIn program.now) }
    ensures { OnOk result (out.new
        ≡ out.old ++ result_text (option_map (type_of program.now) result_type)) }
{
    match result_type {
        None => Ok(()),
        Some(ty) => {
            out.extend(b": ")?;
            write_type(program, ty, out)
        }
    }
}
