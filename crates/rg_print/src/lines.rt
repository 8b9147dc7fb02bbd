//! Lines that begin behind an indent (docs/language.md, "Canonical text").

ghost use Rattle.std.specs.Prelude.{◌≡◌, suc, ◌*◌, ◌-◌, ◌^◌, ◌<◌, ◌++◌, codes, replicate, IfOk};
ghost use Rattle.std.specs.Prelude.{IsOk, OnOk};
ghost use Rattle.rg_tree.specs.Canonical.{line_of};

use rg_base::{ByteList, Memory};

/// Appends an indent: two blanks for each open block.
pub fn indent(depth: u32, out: &mut ByteList) -> Result<(), Memory>
    ensures { OnOk result (out.new ≡ out.old ++ replicate (2 * depth) 32) }
{
    for _ in 0..depth {
        out.extend(b"  ")?;
    }
    Ok(())
}

/// Appends the line that closes a block.
pub fn close_block(depth: u32, out: &mut ByteList) -> Result<(), Memory>
    ensures { OnOk result (out.new ≡ out.old ++ line_of depth (codes "}")) }
{
    indent(depth, out)?;
    out.extend(b"}\n")
}

/// The depth within one block more. An indent that has no number counts as one without memory.
pub fn deeper(depth: u32) -> Result<u32, Memory>
    ensures depth { IfOk result (λ within. within ≡ suc depth) }
    ensures room { depth < 2 ^ 32 - 1 → IsOk result }
{
    if depth == u32::MAX {
        return Err(Memory);
    }
    Ok(depth + 1)
}
