//! What a run works with beside its machine, its input and the pacers (docs/language.md, "Steps").

ghost use Rattle.std.specs.Prelude.{◌≡◌};

use rg_check::Accepted;
use rg_code::CodeList;
use std::alloc::Global;

/// What a run is asked for: at most `n` steps of an accepted program by its code, and whether its
/// collections are reported.
#[derive(Drop)]
pub(crate) struct Task<'a> {
    pub(crate) alloc: Global,
    pub(crate) accepted: &'a Accepted,
    pub(crate) code: &'a CodeList,
    pub(crate) n: u64,
    pub(crate) report: bool,
}

impl<'a> Task<'a> {
    /// With these parts.
    pub(crate) fn new(
        alloc: Global,
        accepted: &'a Accepted,
        code: &'a CodeList,
        n: u64,
        report: bool,
    ) -> Task<'a>
        ensures program { result.accepted.now.program ≡ accepted.now.program }
        ensures code { result.code.now ≡ code.now }
        ensures n { result.n ≡ n }
        ensures report { result.report ≡ report }
    {
        Task {
            alloc,
            accepted,
            code,
            n,
            report,
        }
    }

    /// How many steps it makes at most.
    pub(crate) fn most(&self) -> u64
        ensures { result ≡ self.now.n }
    {
        self.n
    }
}

/// Where the lines of a run go: those that it prints, and those of its collections.
#[derive(Drop)]
pub(crate) struct Sinks<'a, O, R> {
    pub(crate) out: &'a mut O,
    pub(crate) notes: &'a mut R,
}
