//! The text of a world (docs/architecture.md, "Worlds").

ghost use Rattle.std.specs.Prelude.{◌≡◌, ℕ, List, IfOk};
ghost use Rattle.rg_tree.specs.Tree.{Tree};
ghost use Rattle.rg_code.specs.Code.{Code};
ghost use Rattle.rg_cown.specs.Cargo.{CargoList};
ghost use Rattle.rg_sched_atomic.specs.Events.{world_after};
ghost use Rattle.rg_sched_atomic.specs.Settings.{setting_of};
ghost use Rattle.rg_world.specs.Worlds.{IsBehind};
ghost use Rattle.rg_world_text.specs.Text as texts;

use crate::words::add_behaviour;
use rg_base::{ByteList, Memory};
use rg_plan::Plan;
use rg_world::World;
use std::alloc::Global;

/// The text of a world of a plan, behind the schedule that led to it.
pub fn world_text(alloc: Global, plan: &Plan, world: &World) -> Result<ByteList, Memory>
    requires { (t : Tree) × (code : Code) × (images : List CargoList) × (schedule : List ℕ)
        × IsBehind t code plan.now images schedule world.now }
    ensures { (t : Tree) (code : Code) (images : List CargoList) (schedule : List ℕ) →
        IsBehind t code plan.now images schedule world.now → IfOk result (λ text. text
        ≡ texts.world_text plan.now
        (world_after t.classes (setting_of t.classes plan.now images) schedule).told) }
{
    let mut text = ByteList::new(alloc);
    for i in 0..plan.behaviours() {
        let name = plan.behaviour(i).name();
        add_behaviour(&mut text, i, name, world.state(i), world.printed(i))?;
    }
    Ok(text)
}
