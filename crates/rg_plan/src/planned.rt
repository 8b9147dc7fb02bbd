//! A plan, and how it grows by its lines (docs/architecture.md, "Plans").

ghost use Rattle.std.specs.Prelude.{◌≡◌, ◌<◌, length, slice_get, Some};
ghost use Rattle.rg_plan.specs.Plans.{Turn, in_front_of};
ghost use Rattle.rg_tree.specs.Rows.RowTrees.{classes_of};
ghost use Rattle.rg_plan.specs.Plans.{no_plan, ReadAs};
ghost use Rattle.rg_plan.specs.Pieces.{pieces};
ghost use Rattle.rg_plan.specs.Rules as rules;

use crate::behaviour::Behaviour;
use crate::cown::Cown;
use crate::limits::{BEHAVIOURS, COWNS};
use crate::lines::{cown_line, load_line, when_line};
use crate::pieces::Pieces;
use crate::stop::bad;
use crate::words::is;
use rg_base::Stop;
use rg_names::Book;
use rg_queues::Queues;
use std::alloc::Global;
use std::marker::Model;

/// The cowns and the behaviours of a plan. Each goes by its number, from 0, in the order of lines.
#[derive(Drop)]
pub struct Plan {
    cowns: Vec<Cown>,
    behaviours: Vec<Behaviour>,
    queues: Queues,
}

impl Model for Plan {
    ghost use Rattle.std.specs.Prelude.{◌≤◌, length};
    ghost use Rattle.rg_queues.specs.Queues.{AreQueues};
    ghost use Rattle.rg_plan.specs.declared.limits.TheConstants.{COWNS, BEHAVIOURS};
    ghost use Rattle.rg_plan.specs.Plans.{PlanOf, all_cowns};

    ghost Value = { PlanOf };

    ghost view = { λ p. record { cowns = p.cowns.items; behaviours = p.behaviours.items } };

    ghost invariant = { λ p. (length p.cowns.items ≤ COWNS)
        × (length p.behaviours.items ≤ BEHAVIOURS)
        × AreQueues (all_cowns p.behaviours.items) p.queues };
}

impl Plan {
    /// The plan without lines.
    pub(crate) fn new(alloc: Global) -> Plan
        ensures { result ≡ no_plan }
    {
        Plan {
            cowns: Vec::new(alloc),
            behaviours: Vec::new(alloc),
            queues: Queues::new(alloc),
        }
    }

    /// The number of cowns.
    pub fn cowns(&self) -> u32
        ensures { result ≡ length self.now.cowns }
    {
        self.cowns.len() as u32
    }

    /// The cown of a number.
    pub fn cown(&self, i: u32) -> &Cown
        requires { i < length self.now.cowns }
        ensures { slice_get self.now.cowns i ≡ Some result.now }
    {
        &self.cowns[i as usize]
    }

    /// The number of behaviours.
    pub fn behaviours(&self) -> u32
        ensures { result ≡ length self.now.behaviours }
    {
        self.behaviours.len() as u32
    }

    /// The behaviour of a number.
    pub fn behaviour(&self, i: u32) -> &Behaviour
        requires { i < length self.now.behaviours }
        ensures { slice_get self.now.behaviours i ≡ Some result.now }
    {
        &self.behaviours[i as usize]
    }

    /// Which behaviours stand right in front of the one of a number in the queues of its cowns: of
    /// each of them the last earlier one that is over it, too, if there is one.
    pub fn in_front(&self, i: u32) -> &[u32]
        requires { i < length self.now.behaviours }
        ensures { (b : Turn) → slice_get self.now.behaviours i ≡ Some b →
            result.now ≡ in_front_of self.now.behaviours i b }
    {
        self.queues.in_front(i)
    }

    /// Adds what a line says.
    pub(crate) fn add_line(
        &mut self,
        alloc: Global,
        book: &Book<'_>,
        line: u64,
        text: &[u8],
    ) -> Result<(), Stop>
        ensures { ReadAs (λ u. self.new) (rules.with_line (classes_of book.now.program) line
            self.old (pieces 32 text.now)) result }
    {
        let mut words = Pieces::of(text, b' ');
        let Some(first) = words.next() else {
            return Err(bad(line));
        };
        if is(first, b"cown") {
            return self.add_cown(line, cown_line(book, line, words));
        }
        if is(first, b"load") {
            let Ok(cown) = load_line(alloc, book, line, words) else {
                return Err(Stop::Memory);
            };
            return self.add_cown(line, cown);
        }
        if is(first, b"when") {
            let Ok(behaviour) = when_line(alloc, book, self.cowns.as_slice(), words) else {
                return Err(Stop::Memory);
            };
            return self.add_behaviour(alloc, line, behaviour);
        }
        Err(bad(line))
    }

    // Adds a cown, if a line says one.
    fn add_cown(&mut self, line: u64, cown: Option<Cown>) -> Result<(), Stop>
        ensures { ReadAs (λ u. self.new) (rules.with_cown line self.old cown) result }
    {
        let Some(cown) = cown else {
            return Err(bad(line));
        };
        if self.cowns.len() >= COWNS {
            return Err(bad(line));
        }
        match self.cowns.push(cown) {
            Ok(()) => Ok(()),
            Err(_) => Err(Stop::Memory),
        }
    }

    // Adds a behaviour, if a line says one.
    fn add_behaviour(
        &mut self,
        alloc: Global,
        line: u64,
        behaviour: Option<Behaviour>,
    ) -> Result<(), Stop>
        ensures { ReadAs (λ u. self.new) (rules.with_turn line self.old behaviour) result }
    {
        let Some(behaviour) = behaviour else {
            return Err(bad(line));
        };
        if self.behaviours.len() >= BEHAVIOURS {
            return Err(bad(line));
        }
        let Ok(()) = self.behaviours.reserve(1) else {
            return Err(Stop::Memory);
        };
        let Ok(()) = self.queues.add(alloc, behaviour.cowns()) else {
            return Err(Stop::Memory);
        };
        self.behaviours.push_reserved(behaviour);
        Ok(())
    }
}
