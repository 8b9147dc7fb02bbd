//! The last in the queue of each cown (docs/architecture.md, "Plans").

ghost use Rattle.std.specs.Prelude.{◌≡◌, ◌<◌, ◌≤◌, ℕ, None, All, IfOk, OnOk, filter_map, length};
ghost use Rattle.std.specs.Prelude.{slice_index_or};
ghost use Rattle.rg_queues.specs.Inner.Written.{written};

use rg_base::Memory;
use std::alloc::Global;

/// Makes room for what is written at cowns. The queues stay as they are.
pub(crate) fn make_room(last: &mut Vec<Option<u32>>, cowns: &[u32]) -> Result<(), Memory>
    ensures same { (n : ℕ) → slice_index_or last.new.items n None
        ≡ slice_index_or last.old.items n None }
    ensures within { OnOk result (All (λ n. n < length last.new.items) cowns.now) }
{
    for n in cowns {
        reach(last, *n)?;
    }
    Ok(())
}

// Makes room for what is written at a cown.
fn reach(last: &mut Vec<Option<u32>>, cown: u32) -> Result<(), Memory>
    ensures same { (n : ℕ) → slice_index_or last.new.items n None
        ≡ slice_index_or last.old.items n None }
    ensures grows { length last.old.items ≤ length last.new.items }
    ensures within { OnOk result (cown < length last.new.items) }
{
    while last.len() <= cown as usize {
        let Ok(()) = last.push(None) else {
            return Err(Memory);
        };
    }
    Ok(())
}

/// Of cowns, in order, the last ones in their queues.
pub(crate) fn last_of(
    alloc: Global,
    last: &[Option<u32>],
    cowns: &[u32],
) -> Result<Vec<u32>, Memory>
    requires { All (λ n. n < length last.now) cowns.now }
    ensures { IfOk result (λ found. found.items
        ≡ filter_map (λ n. slice_index_or last.now n None) cowns.now) }
{
    let mut found = Vec::new(alloc);
    for n in cowns {
        let Some(k) = last[*n as usize] else {
            continue;
        };
        let Ok(()) = found.push(k) else {
            return Err(Memory);
        };
    }
    Ok(found)
}

/// A behaviour is the last one in the queues of these cowns.
pub(crate) fn write_last(last: &mut Vec<Option<u32>>, cowns: &[u32], number: u32)
    requires { All (λ n. n < length last.old.items) cowns.now }
    ensures { last.new.items ≡ written cowns.now number last.old.items }
{
    for n in cowns {
        last[*n as usize] = Some(number);
    }
}
