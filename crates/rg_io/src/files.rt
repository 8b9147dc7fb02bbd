//! Files by name (docs/architecture.md).

ghost use Rattle.std.specs.Prelude.{◌≡◌, ℕ, ◌<◌, ◌≤◌, List, [], ◌∷◌, ◌++◌, length, take};
ghost use Rattle.std.specs.Prelude.{Option, OnOk, OnErr, IfOk};
ghost use Rattle.rg_io.specs.Content.{Rose};
ghost use Rattle.rg_io.specs.Files.{Told, Begins, Reads, NothingLeft};
ghost use Rattle.rg_io.specs.Files.{SameFiles, HasFile, HasLongFile};
ghost use Rattle.rg_io.specs.Inner.Pieces.{AddsPiece};

use crate::failed::Failed;
use crate::pieces::PIECE;
use rg_base::ByteList;
use std::alloc::Global;

/// Files by name, one of which is read at a time. They have a count of faults, which never falls,
/// and the names that were begun, in order, and may tell a map from names to bytes, and the unread
/// rest of the file that was begun.
pub trait Files {
    ghost faults: { Self → ℕ };

    ghost begun: { Self → List (List ℕ) };

    ghost told: { Self → Option Told };

    /// Begins to read the file of that name.
    fn begin(&mut self, name: &str) -> Result<(), Failed>
        ensures begun { OnOk result (Begins (told self.old) name.now (told self.new)) }
        ensures named { begun self.new ≡ begun self.old ++ name.now ∷ [] }
        ensures failed { OnErr result (Rose (faults self.old) (faults self.new)) }
        ensures kept { OnErr result (told self.new ≡ told self.old) }
        ensures never_falls { faults self.old ≤ faults self.new };

    /// Moves the first bytes of the unread rest into the buffer and answers how many; 0 means that
    /// the rest is empty, as it is before any `begin`.
    fn read(&mut self, buf: &mut [u8]) -> Result<usize, Failed>
        requires { 0 < length buf.old }
        ensures within { IfOk result (λ n. n ≤ length buf.new) }
        ensures read { IfOk result (λ n. Reads (told self.old) (told self.new) (take n buf.new)) }
        ensures end { IfOk result (λ n. n ≡ 0 → NothingLeft (told self.old)) }
        ensures begins_none { begun self.new ≡ begun self.old }
        ensures failed { OnErr result (Rose (faults self.old) (faults self.new)) }
        ensures kept { OnErr result (told self.new ≡ told self.old) }
        ensures buffer_kept { OnErr result (buf.new ≡ buf.old) }
        ensures never_falls { faults self.old ≤ faults self.new };
}

/// Why a file wasn't taken.
#[derive(Clone, Copy, Debug)]
pub enum Taken {
    /// `begin` or `read` failed
    SourceFault,
    /// the file has more bytes than were allowed
    Long,
    /// no memory was found
    Memory,
}

/// Appends a piece of a file of which so many bytes may still come, and answers how many may then.
fn add_piece(bytes: &mut ByteList, piece: &[u8], left: usize) -> Result<usize, Taken>
    ensures { AddsPiece result bytes.old bytes.new piece.now left }
{
    let Some(now) = left.checked_sub(piece.len()) else {
        return Err(Taken::Long);
    };
    match bytes.extend(piece) {
        Ok(()) => Ok(now),
        Err(_) => Err(Taken::Memory),
    }
}

/// Takes a whole file of at most so many bytes, which it begins once. After an `Err` the file may
/// have been read in part.
pub fn take_all<F: Files>(
    alloc: Global,
    files: &mut F,
    name: &str,
    most: usize,
) -> Result<ByteList, Taken>
    ensures ok { IfOk result (λ bytes. HasFile (F.told files.old) name.now bytes) }
    ensures within { IfOk result (λ bytes. length bytes ≤ most) }
    ensures source_fault { result ≡ Err Taken.SourceFault →
        Rose (F.faults files.old) (F.faults files.new) }
    ensures long { result ≡ Err Taken.Long → HasLongFile (F.told files.old) name.now most }
    ensures same_files { SameFiles (F.told files.old) (F.told files.new) }
    ensures begun { F.begun files.new ≡ F.begun files.old ++ name.now ∷ [] }
    ensures never_falls { F.faults files.old ≤ F.faults files.new }
{
    match files.begin(name) {
        Ok(()) => {}
        Err(_) => return Err(Taken::SourceFault),
    }
    let mut bytes = ByteList::new(alloc);
    let mut left = most;
    let mut piece = [0u8; PIECE];
    loop {
        let n = match files.read(&mut piece) {
            Ok(n) => n,
            Err(_) => return Err(Taken::SourceFault),
        };
        if n == 0 {
            return Ok(bytes);
        }
        match add_piece(&mut bytes, &piece[..n], left) {
            Ok(now) => left = now,
            Err(taken) => return Err(taken),
        }
    }
}
