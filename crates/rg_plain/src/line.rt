//! A printed value on a line of its own (docs/language.md, "Values and their text").

ghost use Rattle.std.specs.Prelude.{◌≡◌, ◌≤◌, OnErr, OnOk};
ghost use Rattle.rg_base.specs.Text.{line_text};
ghost use Rattle.rg_io.specs.Content.{Appends, AppendsPart, Rose};

use arrayvec::ArrayString;
use itoa::Buffer;
use rg_base::Val;
use rg_io::{Failed, Sink};

/// The bytes of the longest line: the 20 of the least `i64`, and a newline.
const LINE_BYTES: usize = 21;

/// The line of a value, with its newline.
fn line_of(v: Val) -> ArrayString<LINE_BYTES>
    ensures { result.bytes ≡ line_text v }
{
    let mut line = ArrayString::new();
    match v {
        Val::Int(z) => line.push_str(Buffer::new().format(z)),
        Val::Bool(true) => line.push_str("true"),
        Val::Bool(false) => line.push_str("false"),
        Val::Nil | Val::Obj(_) => (),
    }
    line.push('\n');
    line
}

/// Gives the line of a value to a sink, with its newline, by one `put_all`.
pub fn put_value<O: Sink>(out: &mut O, v: Val) -> Result<(), Failed>
    ensures ok { OnOk result (Appends (O.taken out.old) (O.taken out.new) (line_text v)) }
    ensures failed { OnErr result (Rose (O.faults out.old) (O.faults out.new)) }
    ensures part { OnErr result (AppendsPart (O.taken out.old) (O.taken out.new) (line_text v)) }
    ensures never_falls { O.faults out.old ≤ O.faults out.new }
{
    let line = line_of(v);
    rg_io::put_all(out, line.as_str().as_bytes())
}
