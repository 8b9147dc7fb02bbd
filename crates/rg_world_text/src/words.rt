//! The text of a behaviour (docs/architecture.md, "Worlds").

ghost use Rattle.std.specs.Prelude.{◌≡◌, ◌++◌, OnOk};
ghost use Rattle.rg_base.specs.Text.{line_text, text};
ghost use Rattle.rg_sched_atomic.specs.declared.phase.Phase.TheVariants as Phase;
ghost use Rattle.rg_world_text.specs.Text as texts;

use itoa::Buffer;
use rg_base::{ByteList, Memory, Trap, Val, Vals};
use rg_sched_atomic::Phase;
use rg_words::trap_words;

/// Appends the text of a behaviour: how it stands, and the values that it printed.
pub(crate) fn add_behaviour(
    line: &mut ByteList,
    number: u32,
    name: &[u8],
    phase: Phase,
    printed: &Vals,
) -> Result<(), Memory>
    ensures { OnOk result (line.new
        ≡ line.old ++ texts.behaviour_text number name.now phase printed.now) }
{
    line.extend(b"behaviour ")?;
    line.extend(Buffer::new().format(number).as_bytes())?;
    line.push(b' ')?;
    line.extend(name)?;
    line.push(b' ')?;
    add_phase(line, phase)?;
    line.push(b'\n')?;
    add_values(line, printed)?;
    Ok(())
}

// Appends how a behaviour stands.
fn add_phase(line: &mut ByteList, phase: Phase) -> Result<(), Memory>
    ensures { OnOk result (line.new ≡ line.old ++ texts.phase_text phase) }
{
    match phase {
        Phase::Waiting => line.extend(b"waiting")?,
        Phase::Running => line.extend(b"running")?,
        Phase::Done => line.extend(b"done")?,
        Phase::Trap { kind, line: at } => add_trap(line, kind, at)?,
    }
    Ok(())
}

// Appends a trap and its line.
fn add_trap(line: &mut ByteList, kind: Trap, at: u64) -> Result<(), Memory>
    ensures { OnOk result (line.new ≡ line.old ++ texts.phase_text (Phase.Trap kind at)) }
{
    line.extend(trap_words(kind))?;
    line.extend(b" at line ")?;
    line.extend(Buffer::new().format(at).as_bytes())?;
    Ok(())
}

// Appends values, a line each.
fn add_values(line: &mut ByteList, values: &Vals) -> Result<(), Memory>
    ensures { OnOk result (line.new ≡ line.old ++ text values.now) }
{
    for k in 0..values.len() {
        let Some(v) = values.get(k) else {
            unreachable!();
        };
        add_value(line, v)?;
    }
    Ok(())
}

// Appends a value on a line of its own.
fn add_value(line: &mut ByteList, v: Val) -> Result<(), Memory>
    ensures { OnOk result (line.new ≡ line.old ++ line_text v) }
{
    match v {
        Val::Int(z) => line.extend(Buffer::new().format(z).as_bytes())?,
        Val::Bool(true) => line.extend(b"true")?,
        Val::Bool(false) => line.extend(b"false")?,
        Val::Nil | Val::Obj(_) => {}
    }
    line.push(b'\n')?;
    Ok(())
}
