//! The queues of cowns (docs/architecture.md, "Plans").

ghost use Rattle.std.specs.Prelude.{◌≡◌, ◌<◌, ◌^◌, ◌++◌, ◌∷◌, [], ℕ, List, Some, OnErr, OnOk};
ghost use Rattle.std.specs.Prelude.{length};
ghost use Rattle.std.specs.Prelude.{slice_get};
ghost use Rattle.rg_queues.specs.Queues.{AreQueues};

use crate::last::{last_of, make_room, write_last};
use rg_base::Memory;
use std::alloc::Global;
use std::marker::Model;

/// The queues of cowns, as far as is asked of them: of each behaviour which stand right in front of
/// it, and of each cown the last in its queue.
#[derive(Drop)]
pub struct Queues {
    in_front: Vec<Vec<u32>>,
    last: Vec<Option<u32>>,
}

impl Model for Queues {
    ghost use Rattle.std.specs.Prelude.{map};
    ghost use Rattle.rg_queues.specs.Queues.{QueuesIn};

    ghost Value = { QueuesIn };

    ghost view = { λ q. record {
      in_front = map (λ v. v.items) q.in_front.items;
      last = q.last.items;
    } };
}

impl Queues {
    /// No behaviour has come.
    pub fn new(alloc: Global) -> Queues
        ensures { AreQueues [] result }
    {
        Queues {
            in_front: Vec::new(alloc),
            last: Vec::new(alloc),
        }
    }

    /// Adds the next behaviour, which is over these cowns. A refusal adds none.
    pub fn add(&mut self, alloc: Global, cowns: &[u32]) -> Result<(), Memory>
        requires { length self.old.in_front < 2 ^ 32 }
        ensures added { (all : List (List ℕ)) → AreQueues all self.old →
            OnOk result (AreQueues (all ++ cowns.now ∷ []) self.new) }
        ensures stays { (all : List (List ℕ)) → AreQueues all self.old →
            OnErr result (AreQueues all self.new) }
    {
        make_room(&mut self.last, cowns)?;
        let front = last_of(alloc, self.last.as_slice(), cowns)?;
        let number = self.in_front.len() as u32;
        let Ok(()) = self.in_front.push(front) else {
            return Err(Memory);
        };
        write_last(&mut self.last, cowns, number);
        Ok(())
    }

    /// Which stand right in front of a behaviour, in the order of its cowns.
    pub fn in_front(&self, i: u32) -> &[u32]
        requires { i < length self.now.in_front }
        ensures { slice_get self.now.in_front i ≡ Some result.now }
    {
        self.in_front[i as usize].as_slice()
    }
}
