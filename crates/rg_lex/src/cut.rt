//! A source is cut into its tokens, piece by piece (docs/language.md, "Tokens").

ghost use Rattle.std.specs.Prelude.{◌≡◌, ◌<◌, ◌≤◌, ◌^◌, length, IfOk};
ghost use Rattle.rg_base.specs.Tokens.{cut, end_line, line_after};
ghost use Rattle.rg_lex.specs.Gives.{Gives};
ghost use Rattle.rg_lex.specs.Places.{AreSpans, AreLines};

use crate::piece::read_front;
use crate::token_list::Tokens;
use rg_base::{Fault, SOURCE_BYTES, Stop, Token};
use std::alloc::Global;

/// The tokens of a source, or its first fault.
pub fn tokens(alloc: Global, bytes: &[u8]) -> Result<Tokens, Stop>
    requires { length bytes.now ≤ SOURCE_BYTES }
    ensures cut { Gives result (cut bytes.now) }
    ensures end_line { IfOk result (λ t. t.end_line ≡ end_line bytes.now) }
    ensures spans { IfOk result (λ t. AreSpans 0 (length bytes.now) t.tokens) }
    ensures lines { IfOk result (λ t. AreLines 1 (end_line bytes.now) t.tokens) }
{
    let mut found: Vec<Token> = Vec::new(alloc);
    let mut line: u64 = 1;
    let mut at: usize = 0;
    while at < bytes.len() {
        let front = match read_front(&bytes[at..]) {
            Ok(front) => front,
            Err(code) => return Err(Stop::Fault(Fault { code, line })),
        };
        let to = at + front.len;
        match front.kind {
            None => line = next_line(line, bytes[at]),
            Some(kind) => {
                let token = Token {
                    kind,
                    from: at,
                    to,
                    line,
                };
                let Ok(()) = found.push(token) else {
                    return Err(Stop::Memory);
                };
            }
        }
        at = to;
    }
    Ok(Tokens::of(found, line))
}

/// The line behind a byte.
fn next_line(line: u64, b: u8) -> u64
    requires { line < 2 ^ 32 }
    ensures { result ≡ line_after line b }
{
    if b == b'\n' { line + 1 } else { line }
}
