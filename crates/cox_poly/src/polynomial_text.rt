//! The text of a polynomial: its terms by rising degree.
ghost use Rattle.std.specs.Prelude.{◌<◌, ◌≤◌, ◌+◌, length, vec_len, vec_capacity, OnErr};
ghost use Rattle.cox_poly.specs.Puts.{Puts};
ghost use Rattle.cox_poly.specs.Numerals.{number_text, integer_text};
ghost use Rattle.cox_poly.specs.PolynomialText.{power_text, factor_text, term_text, plus_text, next_term_text, polynomial_text};
ghost use Rattle.cox_poly.specs.ListedText.{listed_term_text};

use crate::NoMemory;
use crate::append::{put_number, put_text};

// A coefficient, and a degree.
fn put_coefficient(out: &mut Vec<u8>, c: i64) -> Result<(), NoMemory>
    ensures text { Puts result (integer_text c) out.old.items out.new.items }
    ensures full { OnErr result (vec_capacity out.old < vec_len out.old + length (integer_text c)) }
    ensures capacity { vec_capacity out.old ≤ vec_capacity out.new }
{
    put_number(out, i128::from(c))
}

fn put_degree(out: &mut Vec<u8>, k: usize) -> Result<(), NoMemory>
    ensures text { Puts result (number_text k) out.old.items out.new.items }
    ensures full { OnErr result (vec_capacity out.old < vec_len out.old + length (number_text k)) }
    ensures capacity { vec_capacity out.old ≤ vec_capacity out.new }
{
    put_number(out, k as i128)
}

// The power of q at degree k.
fn put_power(out: &mut Vec<u8>, k: usize) -> Result<(), NoMemory>
    ensures text { Puts result (power_text k) out.old.items out.new.items }
    ensures full { OnErr result (vec_capacity out.old < vec_len out.old + length (power_text k)) }
    ensures capacity { vec_capacity out.old ≤ vec_capacity out.new }
{
    if k == 0 {
        Ok(())
    } else if k == 1 {
        put_text(out, b"q")
    } else {
        put_text(out, b"q^")?;
        put_degree(out, k)
    }
}

/// Appends what stands before the power of q in a term: the number, but nothing for 1 and `-` for -1 where the degree k is not 0.
pub fn put_factor(out: &mut Vec<u8>, k: usize, c: i64) -> Result<(), NoMemory>
    ensures text { Puts result (factor_text k c) out.old.items out.new.items }
    ensures full { OnErr result (vec_capacity out.old < vec_len out.old + length (factor_text k c)) }
    ensures capacity { vec_capacity out.old ≤ vec_capacity out.new }
{
    if k != 0 && c == 1 {
        Ok(())
    } else if k != 0 && c == -1 {
        put_text(out, b"-")
    } else {
        put_coefficient(out, c)
    }
}

// The term c q^k.
fn put_term(out: &mut Vec<u8>, k: usize, c: i64) -> Result<(), NoMemory>
    ensures text { Puts result (term_text (k, c)) out.old.items out.new.items }
    ensures full { OnErr result (vec_capacity out.old < vec_len out.old + length (term_text (k, c))) }
    ensures capacity { vec_capacity out.old ≤ vec_capacity out.new }
{
    put_factor(out, k, c)?;
    put_power(out, k)
}

// What stands before a term after the first.
fn put_plus(out: &mut Vec<u8>, c: i64) -> Result<(), NoMemory>
    ensures text { Puts result (plus_text c) out.old.items out.new.items }
    ensures full { OnErr result (vec_capacity out.old < vec_len out.old + length (plus_text c)) }
    ensures capacity { vec_capacity out.old ≤ vec_capacity out.new }
{
    if c > 0 { put_text(out, b"+") } else { Ok(()) }
}

// The term c q^k after another one.
fn put_next_term(out: &mut Vec<u8>, k: usize, c: i64) -> Result<(), NoMemory>
    ensures text { Puts result (next_term_text (k, c)) out.old.items out.new.items }
    ensures full { OnErr result (vec_capacity out.old < vec_len out.old + length (next_term_text (k, c))) }
    ensures capacity { vec_capacity out.old ≤ vec_capacity out.new }
{
    put_plus(out, c)?;
    put_term(out, k, c)
}

// The term c q^k, the first or not.
fn put_listed_term(out: &mut Vec<u8>, first: bool, k: usize, c: i64) -> Result<(), NoMemory>
    ensures text { Puts result (listed_term_text first (k, c)) out.old.items out.new.items }
    ensures full { OnErr result (vec_capacity out.old < vec_len out.old + length (listed_term_text first (k, c))) }
    ensures capacity { vec_capacity out.old ≤ vec_capacity out.new }
{
    if first {
        put_term(out, k, c)
    } else {
        put_next_term(out, k, c)
    }
}

// The text of the polynomial with these coefficients.
pub(crate) fn put_polynomial(out: &mut Vec<u8>, coefficients: &[i64]) -> Result<(), NoMemory>
    ensures text { Puts result (polynomial_text coefficients.now) out.old.items out.new.items }
    ensures full { OnErr result (vec_capacity out.old < vec_len out.old + length (polynomial_text coefficients.now)) }
    ensures capacity { vec_capacity out.old ≤ vec_capacity out.new }
{
    let mut first = true;
    for (k, c) in coefficients.iter().enumerate() {
        if *c != 0 {
            put_listed_term(out, first, k, *c)?;
            first = false;
        }
    }
    if first { put_text(out, b"0") } else { Ok(()) }
}
