//! The laws of the programs that a module's bytes mean, and of the limits, as contracts of functions
//! that do nothing (docs/promises.md, "The headline").

ghost use Rattle.rg_top.specs.Laws.{EachRuns};
ghost use Rattle.rg_top.specs.Limits.{LimitsAre};
ghost use Rattle.rg_top.specs.Packed.{PackedRunsAs};

/// Where a run of one program that raises a module stands on a machine, a run of each other one
/// does, and asks the pacers as often.
pub fn each_runs()
    ensures { EachRuns }
{
    rg_module::at_most_one_module();
    rg_verify::raised_alike();
    rg_alike::stand_alike();
    rg_lines::same_asks();
}

/// What `pack` writes of a program does to `exec` what the program does to `run`.
pub fn packed_runs_as()
    ensures { PackedRunsAs }
{
    rg_packed::packed_spells_module();
    rg_packed::packed_is_raised();
    rg_packed::one_module_one_run();
    rg_module::at_most_one_module();
}

/// The limits in numbers.
pub fn limits_are()
    ensures { LimitsAre }
{}
