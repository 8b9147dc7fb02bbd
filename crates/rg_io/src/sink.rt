//! Where bytes go (docs/architecture.md).

ghost use Rattle.std.specs.Prelude.{◌≡◌, ℕ, ◌<◌, ◌≤◌, List, length, take, Option};
ghost use Rattle.std.specs.Prelude.{OnOk, OnErr, IfOk};
ghost use Rattle.rg_io.specs.Content.{Rose, Appends, AppendsPart};

use crate::failed::Failed;

/// A sink of bytes. It has a count of faults, which never falls, and may tell which bytes it has
/// taken.
pub trait Sink {
    ghost faults: { Self → ℕ };

    ghost taken: { Self → Option (List ℕ) };

    /// Takes one or more of the first bytes of the piece, and answers how many.
    fn write(&mut self, piece: &[u8]) -> Result<usize, Failed>
        requires { 0 < length piece.now }
        ensures some { IfOk result (λ n. (0 < n) × (n ≤ length piece.now)) }
        ensures took { IfOk result (λ n.
            Appends (taken self.old) (taken self.new) (take n piece.now)) }
        ensures failed { OnErr result (Rose (faults self.old) (faults self.new)) }
        ensures kept { OnErr result (taken self.new ≡ taken self.old) }
        ensures never_falls { faults self.old ≤ faults self.new };
}

/// Gives all bytes in order. It stops at the first fault: the sink has then taken a prefix of them.
pub fn put_all<O: Sink>(out: &mut O, bytes: &[u8]) -> Result<(), Failed>
    ensures ok { OnOk result (Appends (O.taken out.old) (O.taken out.new) bytes.now) }
    ensures failed { OnErr result (Rose (O.faults out.old) (O.faults out.new)) }
    ensures part { OnErr result (AppendsPart (O.taken out.old) (O.taken out.new) bytes.now) }
    ensures never_falls { O.faults out.old ≤ O.faults out.new }
{
    let mut at = 0;
    while at < bytes.len() {
        match out.write(&bytes[at..]) {
            Ok(n) => at += n,
            Err(_) => return Err(Failed),
        }
    }
    Ok(())
}
