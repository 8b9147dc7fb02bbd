//! What is answered behind a schedule (docs/promises.md, "The headline").

ghost use Rattle.std.specs.Prelude.{ℕ, List, length, ◌≡◌, ◌<◌, IfOk, IfSome};
ghost use Rattle.rg_tree.specs.Tree.{Tree};
ghost use Rattle.rg_code.specs.Code.{Code};
ghost use Rattle.rg_cown.specs.Cargo.{CargoList};
ghost use Rattle.rg_slots.specs.Slots.{content_seen};
ghost use Rattle.rg_sched.specs.Running.{IsCounted};
ghost use Rattle.rg_words.specs.Answers.{CausedByOutput};
ghost use Rattle.rg_when.specs.Scheduled.{kept_of, answer_behind};
ghost use Rattle.rg_when.specs.Inner.Puts.{text_answer, PutsAnswer};

use rg_base::{ByteList, Memory};
use rg_image::encode;
use rg_io::{Sink, put_all};
use rg_plan::Plan;
use rg_sched::{Behind, Content};
use rg_sched_atomic::{every_schedule_is_one_by_one, plans_are_settings};
use rg_words::Status;
use rg_world_text::world_text;
use std::alloc::Global;

// The image of what a cown has; None while a running behaviour has that.
fn kept_text(alloc: Global, content: Content<'_>) -> Result<Option<ByteList>, Memory>
    ensures { (taken : ℕ) → IfOk result (λ text. text_answer text taken
        ≡ kept_of (content_seen content.entry) taken) }
{
    match content {
        Content::Away => Ok(None),
        Content::Empty => {
            let image = encode(alloc, None)?;
            Ok(Some(image))
        }
        Content::Held(cargo) => {
            let image = encode(alloc, Some(cargo))?;
            Ok(Some(image))
        }
    }
}

// The text of the world behind a schedule, which is that of behaviours that are done one after
// another, or the image of what a cown has there; None while a running behaviour has that.
fn told_text(
    alloc: Global,
    plan: &Plan,
    behind: &Behind,
    keep: Option<u32>,
) -> Result<Option<ByteList>, Memory>
    requires keep { IfSome keep (λ k. k < length plan.now.cowns) }
    requires behind { (t : Tree) × (code : Code) × (images : List CargoList)
        × (numbers : List ℕ) × IsCounted t code plan.now images numbers behind.now }
    ensures { (t : Tree) (code : Code) (images : List CargoList) (numbers : List ℕ) →
        IsCounted t code plan.now images numbers behind.now → IfOk result (λ text.
        text_answer text behind.now.taken ≡ answer_behind t plan.now images keep numbers) }
{
    plans_are_settings();
    every_schedule_is_one_by_one();
    let Some(cown) = keep else {
        let text = world_text(alloc, plan, &behind.world)?;
        return Ok(Some(text));
    };
    kept_text(alloc, behind.world.content(cown))
}

/// Gives to the output what is answered behind a schedule: the text of its world, or the image of
/// what a cown has there, or nothing while a running behaviour has that.
pub(crate) fn put_behind<O: Sink>(
    alloc: Global,
    plan: &Plan,
    behind: &Behind,
    keep: Option<u32>,
    out: &mut O,
) -> Status
    requires keep { IfSome keep (λ k. k < length plan.now.cowns) }
    requires behind { (t : Tree) × (code : Code) × (images : List CargoList)
        × (numbers : List ℕ) × IsCounted t code plan.now images numbers behind.now }
    ensures put { (t : Tree) (code : Code) (images : List CargoList) (numbers : List ℕ) →
        IsCounted t code plan.now images numbers behind.now →
        PutsAnswer result (answer_behind t plan.now images keep numbers)
        (O.taken out.old) (O.taken out.new) }
    ensures caused { CausedByOutput result (O.faults out.old) (O.faults out.new) }
{
    let Ok(told) = told_text(alloc, plan, behind, keep) else {
        return Status::Memory;
    };
    let Some(text) = told else {
        return Status::Away {
            taken: behind.taken,
        };
    };
    match put_all(out, text.bytes()) {
        Ok(()) => Status::Done,
        Err(_) => Status::OutputFault,
    }
}
