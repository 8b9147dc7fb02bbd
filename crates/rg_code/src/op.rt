//! The instructions (docs/language.md, "Instructions and lowering").
//!
//! Each line shows an instruction as a listing has it, and what it does. Legend:
//!
//!     a b -> c   the topmost words of the stack before and after, the topmost one last; words
//!                beneath stay, and so does the stack where no arrow stands
//!     r          a reference or nil; n a number, b a truth value, a any word
//!     s, z       slots of the topmost frame
//!     k, c, m    the numbers of a field in its class, of a class, of a method in the program; an
//!                element has its place as its number
//!     t, L       an address in the code, a line of the source
//!     (nil)      traps: here where the reference is nil
//!
//! Notes:
//!
//!  1. The operand of `and` and `or` stays where it decides, and goes where the right side does.
//!  2. A slot that ends gives up what it owns, and so does one that `own` stores into: the region
//!     is released with all beneath it.
//!  3. `room` stands in front of each `call`: want of memory comes before any slot is cleared.
//!  4. `call` makes a frame whose first slots are the receiver and the arguments; `ret` and `retv`
//!     take it away and go on behind the `call`.

use rg_base::Manager;

/// An instruction.
#[derive(Clone, Copy)]
pub enum Op {
    /// `mark L`: a step of line L begins
    Mark { line: u64 },
    /// `int n`: `-> n`
    Int { value: i64 },
    /// `bool b`: `-> b`
    Bool { value: bool },
    /// `nil`: `-> nil`
    Nil,
    /// `load s`: `-> a`, what slot s holds
    Load { slot: u32 },
    /// `clear s`: nil into slot s
    Clear { slot: u32 },
    /// `store s`: `a ->`, a into slot s
    Store { slot: u32 },
    /// `own s`: `a ->`, releases what slot s owns, then a into slot s; note 2
    Own { slot: u32 },
    /// `field k`: `r -> a`, field k of r (nil)
    Field { index: u32 },
    /// `isnil`: `r -> b`, whether r is nil
    IsNil,
    /// `neg`: `n -> -n` (overflow)
    Neg,
    /// `add`: `n m -> n + m` (overflow)
    Add,
    /// `sub`: `n m -> n - m` (overflow)
    Sub,
    /// `mul`: `n m -> n * m` (overflow)
    Mul,
    /// `div`: `n m -> n / m` (zero, overflow)
    Div,
    /// `rem`: `n m -> n % m` (zero, overflow)
    Rem,
    /// `eq`: `a b -> a == b`
    Eq,
    /// `ne`: `a b -> a != b`
    Ne,
    /// `lt`: `n m -> n < m`
    Lt,
    /// `le`: `n m -> n <= m`
    Le,
    /// `gt`: `n m -> n > m`
    Gt,
    /// `ge`: `n m -> n >= m`
    Ge,
    /// `not`: `b -> not b`
    Not,
    /// `jump t`: goes to t
    Jump { to: usize },
    /// `jfalse t`: `b ->`, goes to t where b is false
    JumpFalse { to: usize },
    /// `and t`: `b -> b`, goes to t where b is false; else `b ->`; note 1
    And { to: usize },
    /// `or t`: `b -> b`, goes to t where b is true; else `b ->`; note 1
    Or { to: usize },
    /// `check`: `r -> r` (nil)
    Check,
    /// `new c`: `-> r`, a new object of the active region
    New { class: u32 },
    /// `newtmp c`: `-> r`, a new temporary of the topmost window
    NewTmp { class: u32 },
    /// `newiso c m`: `-> r`, the bridge of a new closed region, whose manager is m
    NewIso { class: u32, manager: Manager },
    /// `pace`: asks the active region's pacer, where it has one
    Pace,
    /// `put k`: `r a ->`, a into field k of r
    Put { index: u32 },
    /// `swap s k`: `r ->`, slot s and field k of r exchange what they hold
    Swap { slot: u32, index: u32 },
    /// `freeze s`: `-> r`, the bridge that slot s holds; its region and all beneath are frozen; nil
    /// into slot s (nil)
    Freeze { slot: u32 },
    /// `merge s`: `-> r`, the bridge that slot s holds; its region joins the active one; nil into
    /// slot s (nil)
    Merge { slot: u32 },
    /// `read`: `-> n`, the next number of the input (input, end)
    Read,
    /// `more`: `-> b`, whether the input has anything but blanks left
    More,
    /// `room`: room for one more frame (depth); note 3
    Room,
    /// `call m`: `r a .. ->`, goes to the entry of method m in a new frame; note 4
    Call { method: u32 },
    /// `ret`: `a ->` in the frame that ends, `-> a` in the one that called; note 4
    Ret,
    /// `retv`: the frame ends; note 4
    RetVoid,
    /// `enter s z`: a window on the region that slot s owns, its bridge into slot z (nil)
    Enter { slot: u32, bridge: u32 },
    /// `enterf k z`: `r ->`, the same for field k of r (nil)
    EnterField { index: u32, bridge: u32 },
    /// `leave s`: slots from s on end, and then the window; note 2
    Leave { slot: u32 },
    /// `end s`: slots from s on end; note 2
    End { slot: u32 },
    /// `print`: `a ->`, prints a
    Print,
    /// `collect`: collects the active region
    Collect,
    /// `pop`: `a ->`
    Pop,
    /// `drop`: `r ->`, releases what r owns
    Drop,
    /// `halt`: the program is done
    Halt,
    /// `newarr c`: `n -> r`, a new array of the active region, with n elements (size)
    NewArray { class: u32 },
    /// `newtmparr c`: `n -> r`, a new temporary of the topmost window, with n elements (size)
    NewTmpArray { class: u32 },
    /// `newisoarr c m`: `n -> r`, the bridge of a new closed region, with n elements; its manager
    /// is m (size)
    NewIsoArray { class: u32, manager: Manager },
    /// `size`: `r -> n`, the number of elements of r (nil)
    Size,
    /// `bound`: `r n -> r n` (index): where r has no element n
    Bound,
    /// `elem`: `r n -> a`, element n of r
    Element,
    /// `putelem`: `r n a ->`, a into element n of r
    PutElement,
    /// `leaveg w z`: as `leave z`, and then what slot w held where the reference stands that owns
    /// the region; note 2 (nil)
    LeaveGiving { given: u32, slot: u32 },
}
