//! What a command works with beside its words and files (docs/architecture.md).

ghost use Rattle.std.specs.Prelude.{◌≡◌, ◌≤◌, ◌<◌, [], length, take, IfOk, IfSome, OnErr, OnOk};
ghost use Rattle.rg_io.specs.Content.{Rose, Gives, gave, failed};
ghost use Rattle.rg_commands.specs.Inner.Nothing.{gives_nothing, nothing_left, no_faults};

use rg_io::{Failed, Source};
use rg_run::Machine;
use std::alloc::Global;

/// Memory, the output and the notes, and the machine that a run is made on.
#[derive(Drop)]
pub struct Setting<'a, O, R> {
    pub alloc: Global,
    pub out: &'a mut O,
    pub notes: &'a mut R,
    pub machine: &'a mut Machine,
}

/// The input of a generated program: it has nothing left and never fails.
#[derive(Drop)]
pub(crate) struct NoInput;

impl Source for NoInput {
    ghost faults = { no_faults };

    ghost left = { nothing_left };

    ghost replies = { gives_nothing };

    fn read(&mut self, buf: &mut [u8]) -> Result<usize, Failed>
        requires { 0 < length buf.old }
        ensures within { IfOk result (λ n. n ≤ length buf.new) }
        ensures gave { IfOk result (λ n.
            Gives (nothing_left self.old) (nothing_left self.new) (take n buf.new)) }
        ensures end { IfOk result (λ n. n ≡ 0 →
            IfSome (nothing_left self.old) (λ bytes. bytes ≡ [])) }
        ensures replied { IfOk result (λ n.
            gives_nothing self.old (gave (take n buf.new)) self.new) }
        ensures quiet { OnOk result (no_faults self.new ≡ no_faults self.old) }
        ensures refused { OnErr result (gives_nothing self.old failed self.new) }
        ensures failed { OnErr result (Rose (no_faults self.old) (no_faults self.new)) }
        ensures kept { OnErr result (nothing_left self.new ≡ nothing_left self.old) }
        ensures buffer_kept { OnErr result (buf.new ≡ buf.old) }
        ensures never_falls { no_faults self.old ≤ no_faults self.new }
    {
        Ok(0)
    }
}
