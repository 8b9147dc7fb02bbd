//! The three kinds of lines of a plan (docs/architecture.md, "Plans").

ghost use Rattle.std.specs.Prelude.{◌≡◌, ◌≤◌, ◌<◌, [], All, length, option_map, IfOk, IfSome};
ghost use Rattle.rg_plan.specs.declared.limits.TheConstants.{COWNS};
ghost use Rattle.rg_tree.specs.Rows.RowTrees.{classes_of};
ghost use Rattle.rg_plan.specs.Lines as rules;

use crate::behaviour::Behaviour;
use crate::classes::ordinary_class;
use crate::cown::{Cown, Start};
use crate::file_name::FileName;
use crate::owned::owns;
use crate::pieces::{Pieces, pair};
use crate::targets::target_of;
use crate::words::{is_file_name, manager_of, number};
use rg_base::{ByteList, Memory};
use rg_names::Book;
use std::alloc::Global;

/// `cown C M`, behind its first word.
pub fn cown_line(book: &Book<'_>, line: u64, words: Pieces<'_>) -> Option<Cown>
    ensures { result ≡ rules.cown_line (classes_of book.now.program) line words.entry }
{
    let Some((class, manager)) = pair(words) else {
        return None;
    };
    let Some(found) = ordinary_class(book, class) else {
        return None;
    };
    if found.row.element.is_some() {
        return None;
    }
    let Some(manager) = manager_of(manager) else {
        return None;
    };
    Some(Cown {
        class: found.class,
        start: Start::New(manager),
        line,
    })
}

/// `load C NAME`, behind its first word.
pub fn load_line(
    alloc: Global,
    book: &Book<'_>,
    line: u64,
    words: Pieces<'_>,
) -> Result<Option<Cown>, Memory>
    ensures { IfOk result (λ o. o
        ≡ rules.load_line (classes_of book.now.program) line words.entry) }
{
    let Some((class, name)) = pair(words) else {
        return Ok(None);
    };
    let Some(found) = ordinary_class(book, class) else {
        return Ok(None);
    };
    if !is_file_name(name) {
        return Ok(None);
    }
    let Ok(name) = FileName::of(alloc, name) else {
        return Err(Memory);
    };
    Ok(Some(Cown {
        class: found.class,
        start: Start::Image(name),
        line,
    }))
}

/// `when C.m N N ..`, behind its first word, where there are these cowns.
pub fn when_line(
    alloc: Global,
    book: &Book<'_>,
    cowns: &[Cown],
    mut words: Pieces<'_>,
) -> Result<Option<Behaviour>, Memory>
    requires { length cowns.now ≤ COWNS }
    ensures { IfOk result (λ o. o
        ≡ rules.when_line (classes_of book.now.program) cowns.now words.entry) }
{
    let Some(text) = words.next() else {
        return Ok(None);
    };
    let Some(aim) = target_of(book, text) else {
        return Ok(None);
    };
    let Ok(read) = cown_numbers(alloc, cowns.len() as u32, words) else {
        return Err(Memory);
    };
    let Some(numbers) = read else {
        return Ok(None);
    };
    if numbers.is_empty() {
        return Ok(None);
    }
    if !owns(book, aim.class, cowns, numbers.as_slice()) {
        return Ok(None);
    }
    let Ok(name) = text_of(alloc, text) else {
        return Err(Memory);
    };
    Ok(Some(Behaviour::new(aim.class, aim.method, name, numbers)))
}

// The numbers that words say.
fn cown_numbers(
    alloc: Global,
    cowns: u32,
    mut words: Pieces<'_>,
) -> Result<Option<Vec<u32>>, Memory>
    ensures is { IfOk result (λ o. option_map (λ ns. ns.items) o
        ≡ rules.cown_numbers cowns [] words.entry) }
    ensures below { IfOk result (λ o. IfSome o (λ ns. All (λ n. n < cowns) ns.items)) }
{
    let mut numbers = Vec::new(alloc);
    while let Some(word) = words.next() {
        let Some(n) = cown_number(cowns, numbers.as_slice(), word) else {
            return Ok(None);
        };
        let Ok(()) = numbers.push(n) else {
            return Err(Memory);
        };
    }
    Ok(Some(numbers))
}

// The number that a word says, behind earlier ones of its line.
fn cown_number(cowns: u32, earlier: &[u32], word: &[u8]) -> Option<u32>
    ensures is { result ≡ rules.cown_number cowns earlier.now word.now }
    ensures below { IfSome result (λ n. n < cowns) }
{
    let Some(n) = number(word) else {
        return None;
    };
    if n >= cowns {
        return None;
    }
    if earlier.contains(&n) {
        return None;
    }
    Some(n)
}

// These bytes.
fn text_of(alloc: Global, bytes: &[u8]) -> Result<ByteList, Memory>
    ensures { IfOk result (λ text. text ≡ bytes.now) }
{
    let mut text = ByteList::new(alloc);
    text.extend(bytes)?;
    Ok(text)
}
