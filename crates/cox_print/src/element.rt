//! Elements, lists of elements, and sets of letters.
ghost use Rattle.std.specs.Prelude.{◌<◌, ◌≤◌, [], ◌∷◌, ◌++◌, All, decimal};
ghost use Rattle.std.specs.List.{flat_map};
ghost use Rattle.cox_base.specs.Matrix.{IsWord};
ghost use Rattle.cox_poly.specs.Puts.{Puts};
ghost use Rattle.cox_base.specs.WordText.{letters_or};
ghost use Rattle.cox_print.specs.AnswerText.{element_text, set_text};

use crate::NoMemory;
use crate::putting::put_end;
use cox_base::{MAX_RANK, Word, separator};
use cox_poly::append::put_text;

/// Appends an element: `e` for the empty word, else its letters, separated by dots in a group of rank 10 to 16. `rank` is that of the
/// group.
pub fn put_element(out: &mut Vec<u8>, rank: u32, w: &Word) -> Result<(), NoMemory>
    requires rank { rank ≤ MAX_RANK }
    requires word { IsWord rank w.now.items }
    ensures { Puts result (element_text rank w.now.items) out.old.items out.new.items }
{
    put_letters_or(out, b"e", rank, w)
}

/// Appends a set of letters, which rise, in the same way: `-` for the empty set. `rank` is that of the group.
pub fn put_set(out: &mut Vec<u8>, rank: u32, letters: &Word) -> Result<(), NoMemory>
    requires rank { rank ≤ MAX_RANK }
    requires word { IsWord rank letters.now.items }
    ensures { Puts result (set_text rank letters.now.items) out.old.items out.new.items }
{
    put_letters_or(out, b"-", rank, letters)
}

/// Appends the next element of a list: the end of the line before, then the element. A list begins with `put_count`, the number of its
/// elements.
pub fn put_next_element(out: &mut Vec<u8>, rank: u32, w: &Word) -> Result<(), NoMemory>
    requires rank { rank ≤ MAX_RANK }
    requires word { IsWord rank w.now.items }
    ensures { Puts result (10 ∷ element_text rank w.now.items) out.old.items out.new.items }
{
    put_end(out)?;
    put_element(out, rank, w)
}

/// Appends the letters, or this text where there are none.
fn put_letters_or(out: &mut Vec<u8>, none: &[u8], rank: u32, letters: &Word) -> Result<(), NoMemory>
    requires rank { rank ≤ MAX_RANK }
    requires word { IsWord rank letters.now.items }
    ensures { Puts result (letters_or none.now rank letters.now.items) out.old.items out.new.items }
{
    let Some((&first, others)) = letters.as_slice().split_first() else {
        return put_text(out, none);
    };
    put_letter(out, first)?;
    put_other_letters(out, separator(rank), others)
}

/// Appends letters, each with the separator before it.
fn put_other_letters(out: &mut Vec<u8>, separator: &[u8], letters: &[u8]) -> Result<(), NoMemory>
    requires { All (λ letter. letter < 100) letters.now }
    ensures { Puts result (flat_map (λ letter. separator.now ++ decimal letter) letters.now) out.old.items out.new.items }
{
    for &letter in letters {
        put_next_letter(out, separator, letter)?;
    }
    Ok(())
}

/// Appends the separator and a letter.
fn put_next_letter(out: &mut Vec<u8>, separator: &[u8], letter: u8) -> Result<(), NoMemory>
    requires { letter < 100 }
    ensures { Puts result (separator.now ++ decimal letter) out.old.items out.new.items }
{
    if separator.is_empty() {
        return put_letter(out, letter);
    }
    put_text(out, separator)?;
    put_letter(out, letter)
}

/// Appends a letter in decimal.
fn put_letter(out: &mut Vec<u8>, letter: u8) -> Result<(), NoMemory>
    requires { letter < 100 }
    ensures { Puts result (decimal letter) out.old.items out.new.items }
{
    if letter < 10 {
        return put_byte(out, b'0' + letter);
    }
    put_byte(out, b'0' + letter / 10)?;
    put_byte(out, b'0' + letter % 10)
}

/// Appends a byte.
fn put_byte(out: &mut Vec<u8>, byte: u8) -> Result<(), NoMemory>
    ensures { Puts result (byte ∷ []) out.old.items out.new.items }
{
    out.push(byte)?;
    Ok(())
}
