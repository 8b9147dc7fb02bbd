//! Pieces of a line of JSON (docs/embedding.md, "A trail").

use itoa::Buffer;
use rg_base::{ByteList, Label, Manager, Memory, Val};
use std::alloc::Global;

/// Appends a number.
pub fn number(out: &mut ByteList, n: u64) -> Result<(), Memory> {
    out.extend(Buffer::new().format(n).as_bytes())
}

/// Appends a value: an object as its serial in quotation marks.
pub fn value(out: &mut ByteList, v: Val) -> Result<(), Memory> {
    match v {
        Val::Nil => out.extend(b"null"),
        Val::Int(i) => out.extend(Buffer::new().format(i).as_bytes()),
        Val::Bool(true) => out.extend(b"true"),
        Val::Bool(false) => out.extend(b"false"),
        Val::Obj(serial) => {
            out.push(b'"')?;
            number(out, serial)?;
            out.push(b'"')
        }
    }
}

/// Appends to what an object belongs: the number of a region, `"t3"` for the temporaries of window
/// 3, `"f"` for the frozen objects.
pub fn home(out: &mut ByteList, label: Label) -> Result<(), Memory> {
    match label {
        Label::Region(n) => number(out, n),
        Label::Temp(n) => {
            out.extend(b"\"t")?;
            number(out, n)?;
            out.push(b'"')
        }
        Label::Frozen => out.extend(b"\"f\""),
    }
}

/// Appends the word of a manager, in quotation marks.
pub fn manager(out: &mut ByteList, manager: Manager) -> Result<(), Memory> {
    match manager {
        Manager::Arena => out.extend(b"\"arena\""),
        Manager::Count => out.extend(b"\"count\""),
        Manager::Trace => out.extend(b"\"trace\""),
    }
}

/// A list that grows: what stands between its brackets.
#[derive(Drop)]
pub struct Items {
    text: ByteList,
}

impl Items {
    /// No item.
    pub fn new(alloc: Global) -> Items {
        Items {
            text: ByteList::new(alloc),
        }
    }

    /// The text behind which the next item is written.
    pub fn next(&mut self) -> Result<&mut ByteList, Memory> {
        if self.text.bytes().len() > 0 {
            self.text.push(b',')?;
        }
        Ok(&mut self.text)
    }

    /// A value in a list behind the numbers of the last item: `,[v` for the first, then `,v`.
    pub fn also(&mut self, v: Val, is_first: bool) -> Result<(), Memory> {
        self.text.extend(if is_first { b",[" } else { b"," })?;
        value(&mut self.text, v)
    }

    /// The end of such a list, which may be empty, and of the item.
    pub fn end(&mut self, is_empty: bool) -> Result<(), Memory> {
        self.text.extend(if is_empty { b",[]]" } else { b"]]" })
    }

    /// A number as the next item.
    pub fn add(&mut self, n: u64) -> Result<(), Memory> {
        let text = self.next()?;
        number(text, n)
    }

    /// Appends the list as a member of this name.
    pub fn tell(&self, name: &[u8], out: &mut ByteList) -> Result<(), Memory> {
        out.extend(b",\"")?;
        out.extend(name)?;
        out.extend(b"\":[")?;
        out.extend(self.text.bytes())?;
        out.push(b']')
    }

    /// Appends it where something stands in it.
    pub fn tell_some(&self, name: &[u8], out: &mut ByteList) -> Result<(), Memory> {
        if self.text.bytes().len() == 0 {
            return Ok(());
        }
        self.tell(name, out)
    }
}
