//! Bytes cut at each byte of one kind: a plan into its lines, a line into its words
//! (docs/architecture.md, "Plans").

ghost use Rattle.std.specs.Prelude.{◌≡◌, ◌≤◌, ◌==◌, not, length, option_map};
ghost use Rattle.std.specs.List.{prefix_len};
ghost use Rattle.rg_plan.specs.Pieces.{pieces};
ghost use Rattle.rg_plan.specs.Lines.{pair_of};
ghost use Rattle.rg_plan.specs.Inner.Words.{behind, is_done, Takes};

use std::marker::Model;

/// The pieces that are left; contracts see the list of them.
#[derive(Drop)]
pub struct Pieces<'a> {
    rest: Option<&'a [u8]>,
    mark: u8,
}

impl<'a> Model for Pieces<'a> {
    ghost use Rattle.std.specs.Prelude.{List, ℕ, option_map};
    ghost use Rattle.rg_plan.specs.Inner.Words.{left};

    ghost Value = { List (List ℕ) };

    ghost view = { λ p. left p.mark (option_map (λ r. r.now) p.rest) };
}

impl<'a> Pieces<'a> {
    /// What stands in front of, between and behind the bytes that are `mark`.
    pub fn of(bytes: &'a [u8], mark: u8) -> Pieces<'a>
        ensures { result ≡ pieces mark bytes.now }
    {
        Pieces {
            rest: Some(bytes),
            mark,
        }
    }

    /// Whether no piece is left.
    pub fn is_done(&self) -> bool
        ensures { result ≡ is_done self.now }
    {
        match self.rest {
            None => true,
            Some(_) => false,
        }
    }

    /// The next piece.
    pub fn next(&mut self) -> Option<&'a [u8]>
        ensures { Takes (option_map (λ p. p.now) result) self.old self.new }
    {
        let Some(rest) = self.rest else {
            return None;
        };
        let len = run_to(rest, self.mark);
        self.rest = behind(rest, len);
        Some(&rest[..len])
    }
}

// How many bytes stand in front of the first one that is `mark`.
fn run_to(bytes: &[u8], mark: u8) -> usize
    ensures run { result ≡ prefix_len (λ b. not (b == mark)) bytes.now }
    ensures within { result ≤ length bytes.now }
{
    bytes.iter().take_while(|b| **b != mark).count()
}

// What stands behind a byte, if there is one.
fn behind(bytes: &[u8], at: usize) -> Option<&[u8]>
    ensures { option_map (λ r. r.now) result ≡ behind at bytes.now }
{
    if at < bytes.len() {
        Some(&bytes[at + 1..])
    } else {
        None
    }
}

/// Both pieces, where there are two.
pub fn pair(mut pieces: Pieces<'_>) -> Option<(&[u8], &[u8])>
    ensures { option_map (λ p. (p.0.now, p.1.now)) result ≡ pair_of pieces.entry }
{
    let Some(first) = pieces.next() else {
        return None;
    };
    let Some(second) = pieces.next() else {
        return None;
    };
    if pieces.is_done() {
        Some((first, second))
    } else {
        None
    }
}
