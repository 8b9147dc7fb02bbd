//! Parts of lists of bytes, and a piece that is read of the system (docs/architecture.md).

ghost use Rattle.std.specs.Prelude.{◌≡◌, ◌≤◌, ◌++◌, length, take, drop};
ghost use Rattle.std.specs.Prelude.{IfOk, OnErr};

use crate::failed::Failed;
use std::io::Read;

/// The largest piece that is read at once.
pub(crate) const PIECE: usize = 4096;

/// The bytes from a place on.
pub(crate) fn bytes_from(bytes: &[u8], at: usize) -> &[u8]
    requires { at ≤ length bytes.now }
    ensures { result.now ≡ drop at bytes.now }
{
    &bytes[at..]
}

/// Copies the first n bytes.
pub(crate) fn copy_first(from: &[u8], to: &mut [u8], n: usize)
    requires from_has { n ≤ length from.now }
    requires to_has { n ≤ length to.old }
    ensures { to.new ≡ take n from.now ++ drop n to.old }
{
    to[..n].copy_from_slice(&from[..n]);
}

/// Reads a piece into the buffer, and leaves the buffer alone where that fails: what the system
/// then left of its own copy isn't known.
pub(crate) fn read_piece<R: Read>(system: &mut R, buf: &mut [u8]) -> Result<usize, Failed>
    ensures within { IfOk result (λ n. n ≤ length buf.new) }
    ensures buffer_kept { OnErr result (buf.new ≡ buf.old) }
{
    let mut piece = [0u8; PIECE];
    let most = buf.len().min(PIECE);
    let Ok(n) = system.read(&mut piece[..most]) else {
        return Err(Failed);
    };
    copy_first(&piece, buf, n);
    Ok(n)
}
