//! The laws of what a machine shows of programs that are the same but for the lines that no mark
//! has, as contracts of functions that do nothing (docs/architecture.md, "Modules").

ghost use Rattle.rg_alike.specs.Laws.{StandAlike, StandInTables, TellAlike};

/// Where a run of the one stands on a machine, one of the other does.
pub fn stand_alike()
    ensures { StandAlike }
{}

/// Collections that are those of the one's steps are those of the other's.
pub fn tell_alike()
    ensures { TellAlike }
{}

/// Of a program in tables, that its run stands on a machine is what `rg_run` says of the tables.
pub fn stand_in_tables()
    ensures { StandInTables }
{}
