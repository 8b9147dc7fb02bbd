//! A content as bytes, and back (docs/architecture.md, "Images").

ghost use Rattle.std.specs.Prelude.{◌≡◌, IfOk, OnOk, Option, option_map};
ghost use Rattle.rg_tree.specs.Tree.{Tree};
ghost use Rattle.rg_tree.specs.Rows.RowTrees.{program_of};
ghost use Rattle.rg_names.specs.TableOf.{IsTableOf};
ghost use Rattle.rg_cown.specs.Cargo.{CargoList};
ghost use Rattle.rg_image.specs.ImageText.{image_text};
ghost use Rattle.rg_image.specs.Inner.Ranges.{RangedContent};
ghost use Rattle.rg_image.specs.Images.{IsContent, IsImage, Decodes, Answers};

use crate::reading::read;
use crate::sound::is_sound;
use crate::writing::write_content;
use rg_base::{ByteList, Code, Fault, Memory, Stop};
use rg_cown::Cargo;
use rg_names::Classes;
use rg_spell::Refusal;
use rg_tree::Program;
use rg_typed::is_typed;
use std::alloc::Global;

// The bytes of a content.
fn spelled(alloc: Global, content: Option<&Cargo>) -> Result<ByteList, Memory>
    ensures text { IfOk result (λ bytes. bytes ≡ image_text (option_map (λ c. c.now) content.entry)) }
    ensures ranges { OnOk result (RangedContent (option_map (λ c. c.now) content.entry)) }
{
    let mut out = ByteList::new(alloc);
    out.extend(b"RGI1")?;
    write_content(content, &mut out)?;
    Ok(out)
}

/// The image of a content. What a program may hold is read back from it by `decode`.
pub fn encode(alloc: Global, content: Option<&Cargo>) -> Result<ByteList, Memory>
    ensures text { IfOk result (λ bytes. bytes ≡ image_text (option_map (λ c. c.now) content.entry)) }
    ensures image { let held = option_map (λ c. c.now) content.entry in
        IfOk result (λ bytes. (t : Tree) → IsContent t held → IsImage t bytes held) }
{
    let bytes = spelled(alloc, content)?;
    Ok(bytes)
}

/// The content whose image the bytes are, for a program with its class table, or `E95` at line 0.
/// Each byte is looked at once, and a count takes no memory where the bytes are too few for it.
pub fn decode(
    alloc: Global,
    bytes: &[u8],
    program: &Program,
    classes: &Classes,
) -> Result<Option<Cargo>, Stop>
    requires { IsTableOf program.now classes.now }
    ensures image { Decodes (program_of program.now) bytes.now result }
    ensures again { (content : Option CargoList)
        → IsImage (program_of program.now) bytes.now content → Answers result content }
{
    let code = Code::Image;
    let not_image = Stop::Fault(Fault { code, line: 0 });
    let content = match read(alloc, bytes) {
        Ok(content) => content,
        Err(Refusal::NotSpelt) => return Err(not_image),
        Err(Refusal::Memory) => return Err(Stop::Memory),
    };
    let Some(cargo) = content else {
        return Ok(None);
    };
    let Ok(sound) = is_sound(alloc, &cargo) else {
        return Err(Stop::Memory);
    };
    if !sound {
        return Err(not_image);
    }
    if !is_typed(&cargo, program, classes) {
        return Err(not_image);
    }
    Ok(Some(cargo))
}
