//! Each line of a report: words and numbers in turn, and a newline
//! (docs/language.md, "Report").

ghost use Rattle.std.specs.Prelude.{◌≡◌, ◌++◌, decimal, IfOk, OnOk};
ghost use Rattle.rg_base.specs.Report as texts;

use itoa::Buffer;
use rg_base::{ByteList, Cause, EndNumbers, Event, Manager, Memory};
use std::alloc::Global;

/// The first word of an event's line.
fn cause_word(cause: Cause) -> &'static [u8]
    ensures { result.now ≡ texts.cause_text cause }
{
    match cause {
        Cause::Asked => b"collect",
        Cause::Paced => b"paced",
    }
}

/// The word of a manager.
fn manager_word(manager: Manager) -> &'static [u8]
    ensures { result.now ≡ texts.manager_text manager }
{
    match manager {
        Manager::Arena => b"arena",
        Manager::Count => b"count",
        Manager::Trace => b"trace",
    }
}

/// Appends words and the number behind them.
fn add(line: &mut ByteList, words: &[u8], number: u64) -> Result<(), Memory>
    ensures { OnOk result (line.new ≡ line.old ++ words.now ++ decimal number) }
{
    line.extend(words)?;
    line.extend(Buffer::new().format(number).as_bytes())?;
    Ok(())
}

/// The line of a collection, as `collect step 7 region 0 trace held 2 kept 0 released 0`.
pub fn line(alloc: Global, e: &Event) -> Result<ByteList, Memory>
    ensures { IfOk result (λ text. text ≡ texts.event_line e.now) }
{
    let mut text = ByteList::new(alloc);
    text.extend(cause_word(e.cause))?;
    add(&mut text, b" step ", e.step)?;
    add(&mut text, b" region ", e.region)?;
    text.extend(b" ")?;
    text.extend(manager_word(e.manager))?;
    add(&mut text, b" held ", e.held)?;
    add(&mut text, b" kept ", e.kept)?;
    add(&mut text, b" released ", e.released)?;
    text.push(b'\n')?;
    Ok(text)
}

/// The last line of a report, as
/// `end steps 9 made 2 held 0 frozen 0 regions 1 collections 1`.
pub fn end_line(alloc: Global, n: &EndNumbers) -> Result<ByteList, Memory>
    ensures { IfOk result (λ text. text ≡ texts.end_line n.now) }
{
    let mut text = ByteList::new(alloc);
    add(&mut text, b"end steps ", n.steps)?;
    add(&mut text, b" made ", n.made)?;
    add(&mut text, b" held ", n.held)?;
    add(&mut text, b" frozen ", n.frozen)?;
    add(&mut text, b" regions ", n.regions)?;
    add(&mut text, b" collections ", n.collections)?;
    text.push(b'\n')?;
    Ok(text)
}

/// The line of `bulk`, as `bulk 1000 steps 33532 made 2001 high 1501 collections 1`.
pub fn bulk_line(alloc: Global, size: u64, n: &EndNumbers) -> Result<ByteList, Memory>
    ensures { IfOk result (λ text. text ≡ texts.bulk_line size n.now) }
{
    let mut text = ByteList::new(alloc);
    add(&mut text, b"bulk ", size)?;
    add(&mut text, b" steps ", n.steps)?;
    add(&mut text, b" made ", n.made)?;
    add(&mut text, b" high ", n.high)?;
    add(&mut text, b" collections ", n.collections)?;
    text.push(b'\n')?;
    Ok(text)
}
