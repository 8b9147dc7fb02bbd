//! Names, paths and types (docs/language.md, "Canonical text").

ghost use Rattle.std.specs.Prelude.{◌≡◌, ◌<◌, ◌++◌, length, OnOk};
ghost use Rattle.rg_tree.specs.Canonical.{path_text, ty_text};
ghost use Rattle.rg_tree.specs.Rows.RowTrees.{path_of, type_of};
ghost use Rattle.rg_tree.specs.Rows.RowsExist.{IsNameIn, IsPathIn, IsTypeIn};
ghost use Rattle.rg_tree.specs.Rows.Tables.{name_at};

use crate::words::cap_bytes;
use rg_base::{ByteList, Memory};
use rg_tree::{Path, Program, TypeRow};

/// Appends the name of a number.
pub fn write_name(program: &Program, name: u32, out: &mut ByteList) -> Result<(), Memory>
    requires { IsNameIn program.now name }
    ensures { OnOk result (out.new ≡ out.old ++ name_at program.now name) }
{
    out.extend(program.name(name))
}

/// Appends a path.
pub fn write_path(program: &Program, path: Path, out: &mut ByteList) -> Result<(), Memory>
    requires { IsPathIn program.now path }
    ensures { OnOk result (out.new ≡ out.old ++ path_text (path_of program.now path)) }
{
    match path.base {
        None => out.extend(b"self")?,
        Some(name) => write_name(program, name, out)?,
    }
    for field in program.order(path.fields) {
        out.extend(b".")?;
        write_name(program, *field, out)?;
    }
    Ok(())
}

/// Appends a type.
pub fn write_type(program: &Program, ty: TypeRow, out: &mut ByteList) -> Result<(), Memory>
    requires { IsTypeIn program.now ty }
    ensures { OnOk result (out.new ≡ out.old ++ ty_text (type_of program.now ty)) }
{
    match ty {
        TypeRow::Int => out.extend(b"int"),
        TypeRow::Bool => out.extend(b"bool"),
        TypeRow::Ref { cap, name } => {
            out.extend(cap_bytes(cap))?;
            out.extend(b" ")?;
            write_name(program, name, out)
        }
    }
}
