//! The laws of single steps, one for each kind of statement and for each kind of end: from a state
//! that fits, where the step goes well, it leaves one that fits and writes only where it may
//! (docs/language.md, "What always holds").

ghost use Rattle.rg_sound.specs.Laws.{DeclareKeeps, AssignKeeps, AssignElementKeeps};
ghost use Rattle.rg_sound.specs.Laws.{CallKeeps, SwapKeeps};
ghost use Rattle.rg_sound.specs.Laws.{BranchKeeps, WhileKeeps, EnterKeeps};
ghost use Rattle.rg_sound.specs.Laws.{PrintKeeps, CollectKeeps, ReturnKeeps};
ghost use Rattle.rg_sound.specs.Laws.{EndKeeps, LeaveKeeps, LeaveGivingKeeps, BackKeeps};

/// `let x: T = r;`
pub fn declare_keeps_fit()
    ensures { DeclareKeeps }
{}

/// `x = r;` and `q.f = r;`
pub fn assign_keeps_fit()
    ensures { AssignKeeps }
{}

/// `q[e] = r;`
pub fn assign_element_keeps_fit()
    ensures { AssignElementKeeps }
{}

/// `call q.m(a, b);`
pub fn call_keeps_fit()
    ensures { CallKeeps }
{}

/// `swap y, q.f;`
pub fn swap_keeps_fit()
    ensures { SwapKeeps }
{}

/// `if e { .. } else { .. }`
pub fn branch_keeps_fit()
    ensures { BranchKeeps }
{}

/// `while e { .. }`
pub fn while_keeps_fit()
    ensures { WhileKeeps }
{}

/// `enter q as z { .. }` and `enter q as z { .. } giving w;`
pub fn enter_keeps_fit()
    ensures { EnterKeeps }
{}

/// `print e;`
pub fn print_keeps_fit()
    ensures { PrintKeeps }
{}

/// `collect;`
pub fn collect_keeps_fit()
    ensures { CollectKeeps }
{}

/// `return e;`
pub fn return_keeps_fit()
    ensures { ReturnKeeps }
{}

/// The end of a block.
pub fn end_keeps_fit()
    ensures { EndKeeps }
{}

/// The end of the block of an `enter`.
pub fn leave_keeps_fit()
    ensures { LeaveKeeps }
{}

/// The end of the block of an `enter` with `giving w`.
pub fn leave_giving_keeps_fit()
    ensures { LeaveGivingKeeps }
{}

/// The end of a method without a result.
pub fn back_keeps_fit()
    ensures { BackKeeps }
{}
