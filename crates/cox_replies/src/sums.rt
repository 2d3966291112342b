//! The answer on intersection cohomology: the polynomials of a row, summed up by length.
ghost use Rattle.std.specs.Prelude.{◌≡◌, ◌+◌, ◌^◌, ◌<◌, ◌≤◌, ℕ, List, length, unsigned_abs};
ghost use Rattle.cox_base.specs.IntegerMatrix.{integer_matrix};
ghost use Rattle.cox_base.specs.ShortLex.{normal_form};
ghost use Rattle.cox_base.specs.Length.{word_length};
ghost use Rattle.cox_poly.specs.Coefficients.{plus};
ghost use Rattle.cox_poly.specs.Polynomial.{coefficient};
ghost use Rattle.cox_poly.specs.Products.{times_q_power};
ghost use Rattle.cox_hecke.specs.Family.{Family};
ghost use Rattle.cox_hecke.specs.Sums.{sum_over};
ghost use Rattle.cox_hecke.specs.Row.{IsRow};
ghost use Rattle.cox_base.specs.Members.{IsInInterval};
ghost use Rattle.cox_base.specs.SortedList.{IsListOf};
ghost use Rattle.cox_context.specs.Numbers.{word_at};
ghost use Rattle.cox_rows.specs.Holding.{HasRow};
ghost use Rattle.cox_replies.specs.Listed.{IsOfRow};
ghost use Rattle.cox_replies.specs.RowReply.{ihbetti_text};
ghost use Rattle.cox_replies.specs.Putting.{PutsSome};

use cox_base::MAX_LETTERS;
use cox_poly::Acc;
use cox_print::{NoMemory, put_numbers};
use cox_rows::Rows;

/// Puts the coefficients of the sum of q^l(x) P(x,w) over the members x <= w, for the member w with the number i.
pub fn put_sums(out: &mut Vec<u8>, rows: &Rows, i: u32) -> Result<(), NoMemory>
    requires member { i < length rows.now.elements.members }
    requires there { HasRow rows.now i }
    ensures { (w : List ℕ) → word_at rows.now.elements.members i ≡ normal_form (integer_matrix rows.now.elements.matrix) w
        → PutsSome result (IsOfRow (integer_matrix rows.now.elements.matrix) w
        (IsInInterval (integer_matrix rows.now.elements.matrix) w) (ihbetti_text (integer_matrix rows.now.elements.matrix) w))
        out.old.items out.new.items }
{
    prove!(rows.context().len() > 0);
    let sums = row_sums(rows, i);
    put_numbers(out, &sums.sums()[..rows.context().length(i) as usize + 1])
}

/// The sum of q^l(x) P(x,w) over the members x <= w, for the member w with the number i.
fn row_sums(rows: &Rows, i: u32) -> Acc
    requires member { i < length rows.now.elements.members }
    requires there { HasRow rows.now i }
    ensures { (w : List ℕ) (p : Family) (members : List (List ℕ))
        → word_at rows.now.elements.members i ≡ normal_form (integer_matrix rows.now.elements.matrix) w
        → IsRow (integer_matrix rows.now.elements.matrix) w p → IsListOf (IsInInterval (integer_matrix rows.now.elements.matrix) w) members
        → (k : ℕ) → coefficient result k
        ≡ sum_over members (λ x. times_q_power (word_length (integer_matrix rows.now.elements.matrix) x) (p x)) k }
{
    prove!(rows.context().len() > 0);
    let mut sums = Acc::new();
    for x in 0..i + 1 {
        add_member(&mut sums, rows, i, x);
    }
    sums
}

/// Adds q^l(x) P(x,w), for the members x and w with the numbers x and i. Nothing is added unless x <= w.
fn add_member(sums: &mut Acc, rows: &Rows, i: u32, x: u32)
    requires member { i < length rows.now.elements.members }
    requires there { HasRow rows.now i }
    requires x { x < length rows.now.elements.members }
    requires room { (k : ℕ) → unsigned_abs (coefficient sums.old k) ≤ 2 ^ 125 }
    ensures sum { (p : Family) → IsRow (integer_matrix rows.now.elements.matrix) (word_at rows.now.elements.members i) p
        → (k : ℕ) → coefficient sums.new k ≡ plus (coefficient sums.old) (times_q_power
        (word_length (integer_matrix rows.now.elements.matrix) (word_at rows.now.elements.members x))
        (p (word_at rows.now.elements.members x))) k }
    ensures small { (k : ℕ) → unsigned_abs (coefficient sums.new k) ≤ unsigned_abs (coefficient sums.old k) + 2 ^ 94 }
{
    prove!(rows.context().len() > 0);
    let Some(polynomial) = rows.polynomial(i, x) else {
        return;
    };
    prove!(rows.context().length(i) as usize <= MAX_LETTERS);
    let _degree = polynomial.degree();
    sums.add_scaled(&polynomial, 1, rows.context().length(x));
}
