//! Counts, lists of numbers, and the end of a line.
ghost use Rattle.std.specs.Prelude.{[], ◌∷◌, ◌++◌, codes, decimal};
ghost use Rattle.std.specs.Fmt.{signed_decimal};
ghost use Rattle.cox_poly.specs.Puts.{Puts};
ghost use Rattle.cox_print.specs.AnswerText.{numbers_text};

use crate::NoMemory;
use cox_poly::append::{put_number, put_text};

/// Appends a count in decimal.
pub fn put_count(out: &mut Vec<u8>, n: usize) -> Result<(), NoMemory>
    ensures { Puts result (decimal n) out.old.items out.new.items }
{
    put_natural(out, n as u64)
}

/// Appends a natural number in decimal.
pub(crate) fn put_natural(out: &mut Vec<u8>, n: u64) -> Result<(), NoMemory>
    ensures { Puts result (decimal n) out.old.items out.new.items }
{
    put_number(out, n as i128)
}

/// Appends whole numbers, separated by one space.
pub fn put_numbers(out: &mut Vec<u8>, list: &[i128]) -> Result<(), NoMemory>
    ensures { Puts result (numbers_text list.now) out.old.items out.new.items }
{
    let Some((&first, others)) = list.split_first() else {
        return Ok(());
    };
    put_number(out, first)?;
    for &n in others {
        put_next_number(out, n)?;
    }
    Ok(())
}

/// Appends a space and a number.
fn put_next_number(out: &mut Vec<u8>, n: i128) -> Result<(), NoMemory>
    ensures { Puts result (codes " " ++ signed_decimal n) out.old.items out.new.items }
{
    put_text(out, b" ")?;
    put_number(out, n)
}

/// Appends the end of a line: LF.
pub fn put_end(out: &mut Vec<u8>) -> Result<(), NoMemory>
    ensures { Puts result (10 ∷ []) out.old.items out.new.items }
{
    put_text(out, b"\n")
}
