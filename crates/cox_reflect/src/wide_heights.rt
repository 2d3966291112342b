//! Heights of roots in 128 bits.

use crate::height_row::HeightRow;
use cox_base::{Coxeter, MAX_RANK};

/// No height of a word of at most so many letters needs more than 128 bits.
pub const LETTERS_OF_128_BITS: usize = 63;

/// A number of at most this size has 128 bits when an entry of the matrix multiplies it.
const LARGEST: u128 = i128::MAX as u128 / 3;

/// Heights as [`Heights`](crate::Heights) has them, for words of at most [`LETTERS_OF_128_BITS`] letters.
#[derive(Clone, Copy)]
pub(crate) struct WideHeights {
    values: [i128; MAX_RANK],
}

impl HeightRow for WideHeights {
    ghost use Rattle.cox_reflect.specs.declared.wide_heights.TheConstants.{LETTERS_OF_128_BITS};

    ghost values = { λ h. h.values };

    ghost sure = { LETTERS_OF_128_BITS };

    fn of_identity() -> WideHeights {
        WideHeights {
            values: [1; MAX_RANK],
        }
    }

    fn put_first(&mut self, g: &Coxeter, s: u8) -> Option<()> {
        let rank = g.rank() as u8;
        let own = self.values[s as usize - 1];
        if own.unsigned_abs() > LARGEST {
            return None;
        }
        for t in 1..rank + 1 {
            let place = t as usize - 1;
            self.values[place] = self.values[place].checked_sub(i128::from(g.entry(s, t)) * own)?;
        }
        Some(())
    }

    fn is_negative(&self, s: u8) -> bool {
        self.values[s as usize - 1] < 0
    }
}
