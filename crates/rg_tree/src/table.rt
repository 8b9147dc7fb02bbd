//! One table: a row by its number, and rows that are put last (docs/language.md, "The tree").

ghost use Rattle.std.specs.Prelude.{◌≡◌, ◌+◌, ◌-◌, ◌<◌, ◌^◌, ◌↔◌, [], ◌∷◌, ◌++◌, length, slice_get};
ghost use Rattle.std.specs.Prelude.{Some, IfOk, IsOk, OnOk, OnErr};

use crate::rows::Span;
use rg_base::Memory;

/// The most rows of a table, so that each has a number.
const MOST_ROWS: usize = 4_294_967_295;

/// The number of the row behind so many; a full table counts as one without memory.
pub fn row_number(rows: usize) -> Result<u32, Memory>
    ensures number { IfOk result (λ n. n ≡ rows) }
    ensures room { IsOk result ↔ (rows < 2 ^ 32 - 1) }
{
    if rows < MOST_ROWS {
        Ok(rows as u32)
    } else {
        Err(Memory)
    }
}

/// The row of a number.
pub fn row_at<R: Copy>(rows: &[R], i: u32) -> R
    requires { i < length rows.now }
    ensures { slice_get rows.now i ≡ Some result }
{
    rows[i as usize]
}

/// Puts a row last, and answers its number.
pub fn push_row<R: Copy>(rows: &mut Vec<R>, row: R) -> Result<u32, Memory>
    ensures number { IfOk result (λ n. n ≡ length rows.old.items) }
    ensures row { OnOk result (rows.new.items ≡ rows.old.items ++ row ∷ []) }
    ensures counted { OnOk result (length rows.old.items < 2 ^ 32 - 1) }
    ensures err { OnErr result (rows.new.items ≡ rows.old.items) }
{
    let number = row_number(rows.len())?;
    match rows.push(row) {
        Ok(()) => Ok(number),
        Err(_) => Err(Memory),
    }
}

/// Puts numbers last, and answers where they are.
pub fn push_numbers(table: &mut Vec<u32>, numbers: &[u32]) -> Result<Span, Memory>
    ensures from { IfOk result (λ s. s.from ≡ length table.old.items) }
    ensures to { IfOk result (λ s. s.to ≡ length table.old.items + length numbers.now) }
    ensures row { OnOk result (table.new.items ≡ table.old.items ++ numbers.now) }
    ensures err { OnErr result (table.new.items ≡ table.old.items) }
{
    if table.len() > MOST_ROWS || numbers.len() > MOST_ROWS - table.len() {
        return Err(Memory);
    }
    let from = table.len() as u32;
    match table.extend_from_slice(numbers) {
        Ok(()) => Ok(Span {
            from,
            to: from + numbers.len() as u32,
        }),
        Err(_) => Err(Memory),
    }
}
