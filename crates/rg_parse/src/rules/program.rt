//! Reads a whole program (docs/language.md, "Grammar").

ghost use Rattle.std.specs.Prelude.{◌≡◌, ◌≢◌, [], ◌∷◌, Some, IfOk, IfErr, OnOk, ◌<◌, length};
ghost use Rattle.rg_tree.specs.Phrases.{the};
ghost use Rattle.rg_tree.specs.Phrases as p;
ghost use Rattle.rg_tree.specs.Table.{next, row};
ghost use Rattle.rg_tree.specs.Rows.RowTrees.{classes_of};
ghost use Rattle.rg_reader.specs.Steps.{Halts};
ghost use Rattle.rg_parse.specs.Inner.Readings.{FoundClass};
ghost use Rattle.rg_parse.specs.Inner.Programs.{FoundMain, FoundProgram};

use crate::rules::blocks::block;
use crate::rules::classes::{class_row, tmp_class_row};
use rg_base::{Code, Keyword, Kind};
use rg_reader::{Halt, Reader};
use rg_tree::ClassRow;

/// All classes, main, and the end.
pub(crate) fn program(reader: &mut Reader<'_>) -> Result<(), Halt>
    requires { classes_of reader.old.tables ≡ [] }
    ensures ok { OnOk result (FoundProgram reader.old reader.new.tables) }
    ensures fault { IfErr result (λ e. Halts (the p.Program ∷ []) reader.old e reader.new) }
{
    while !reader.is_next(Kind::Word(Keyword::Main)) {
        let class = class(reader)?;
        reader.add_class(class)?;
    }
    main_row(reader)
}

/// A class.
fn class(reader: &mut Reader<'_>) -> Result<ClassRow, Halt>
    requires { next reader.old.rest ≢ Some (Kind.Word Keyword.Main) }
    ensures ok { IfOk result (λ r. FoundClass reader.old r reader.new) }
    ensures row { OnOk result (row p.Program (next reader.old.rest)
        ≡ Some (the p.Class ∷ the p.Program ∷ [])) }
    ensures shorter { OnOk result (length reader.new.rest < length reader.old.rest) }
    ensures fault { IfErr result (λ e. Halts (the p.Program ∷ []) reader.old e reader.new) }
{
    if reader.is_next(Kind::Word(Keyword::Class)) {
        class_row(reader)
    } else if reader.is_next(Kind::Word(Keyword::Tmp)) {
        tmp_class_row(reader)
    } else {
        Err(Halt::At(Code::Syntax))
    }
}

/// `main arena { .. }`, and the end
fn main_row(reader: &mut Reader<'_>) -> Result<(), Halt>
    requires { next reader.old.rest ≡ Some (Kind.Word Keyword.Main) }
    ensures ok { OnOk result (FoundMain reader.old reader.new.tables) }
    ensures fault { IfErr result (λ e. Halts (the p.Program ∷ []) reader.old e reader.new) }
{
    let line = reader.line(0);
    reader.take(Kind::Word(Keyword::Main))?;
    let manager = reader.manager()?;
    let body = block(reader)?;
    reader.finish()?;
    reader.set_main(manager, body, line);
    Ok(())
}
