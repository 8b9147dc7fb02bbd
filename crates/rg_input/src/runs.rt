//! Runs of bytes of one kind (docs/language.md, "Input numbers").

ghost use Rattle.std.specs.Prelude.{◌≡◌, ◌≤◌, length, take};
ghost use Rattle.std.specs.List.{prefix_len};
ghost use Rattle.rg_base.specs.Pieces.{is_blank};
ghost use Rattle.rg_input.specs.Read.{is_in_token};

/// A space, a tab, the end of a line or a carriage return.
pub(crate) fn is_blank_byte(byte: u8) -> bool
    ensures { result ≡ is_blank byte }
{
    byte <= b' ' && matches!(byte, b' ' | b'\t' | b'\n' | b'\r')
}

/// How many bytes at the front are blanks.
pub(crate) fn blank_run(bytes: &[u8]) -> usize
    ensures run { result ≡ prefix_len is_blank bytes.now }
    ensures within { result ≤ length bytes.now }
{
    bytes.iter().take_while(|b| is_blank_byte(**b)).count()
}

/// How many bytes at the front are no blanks.
pub(crate) fn token_run(bytes: &[u8]) -> usize
    ensures run { result ≡ prefix_len is_in_token bytes.now }
    ensures within { result ≤ length bytes.now }
{
    bytes.iter().take_while(|b| !is_blank_byte(**b)).count()
}

/// The first bytes, at most so many.
pub(crate) fn first(bytes: &[u8], most: usize) -> &[u8]
    ensures first { result.now ≡ take most bytes.now }
    ensures within { length result.now ≤ length bytes.now }
    ensures few { length result.now ≤ most }
{
    &bytes[..most.min(bytes.len())]
}
