//! What is summed up over polynomials of rows.
ghost use Rattle.std.specs.Prelude.{◌≡◌, ◌+◌, ◌≤◌, ◌^◌, ℕ, unsigned_abs};
ghost use Rattle.cox_base.specs.declared.limits.TheConstants.{MAX_LETTERS};
ghost use Rattle.cox_poly.specs.Polynomial.{coefficient, HasDegreeBelow};
ghost use Rattle.cox_replies.specs.RowReply.{coefficients_to};
ghost use Rattle.cox_replies.specs.Totals.{no_totals, both_totals, polynomial_totals, sum_of};

use cox_poly::PolyView;
use std::marker::Model;

/// What is summed up over polynomials of rows: how many there are, their greatest degree, and the sum of all their coefficients.
#[derive(Drop)]
pub struct RowTotals {
    /// How many there are.
    pub(crate) entries: u64,
    /// Their greatest degree.
    pub(crate) degree: u32,
    /// The sum of all their coefficients.
    pub(crate) sum: i128,
}

impl Model for RowTotals {
    ghost use Rattle.std.specs.Prelude.{◌≤◌, ◌*◌, ◌^◌, unsigned_abs};
    ghost use Rattle.cox_replies.specs.Totals.{Totals};

    ghost Value = { Totals };

    ghost view = { λ t. record { entries = t.entries; degree = t.degree; sum = t.sum } };

    // A polynomial of a row has at most 256 coefficients, of 64 bits each.
    ghost invariant = { λ t. unsigned_abs t.sum ≤ t.entries * 2 ^ 71 };
}

impl RowTotals {
    /// Those of no polynomials.
    pub fn none() -> RowTotals
        ensures { result ≡ no_totals }
    {
        RowTotals {
            entries: 0,
            degree: 0,
            sum: 0,
        }
    }

    /// Those of one polynomial, which has a degree of at most `MAX_LETTERS`.
    pub fn of(polynomial: &PolyView<'_>) -> RowTotals
        requires { HasDegreeBelow polynomial.now (MAX_LETTERS + 1) }
        ensures one { result.entries ≡ 1 }
        ensures totals { (n : ℕ) → HasDegreeBelow polynomial.now (n + 1)
            → result ≡ polynomial_totals (coefficients_to n (coefficient polynomial.now)) }
    {
        match polynomial.degree() {
            None => RowTotals {
                entries: 1,
                degree: 0,
                sum: 0,
            },
            Some(degree) => RowTotals {
                entries: 1,
                degree,
                sum: coefficient_sum(polynomial, degree),
            },
        }
    }

    /// Adds those of more polynomials.
    pub fn add(&mut self, more: &RowTotals)
        requires { self.old.entries + more.now.entries ≤ 2 ^ 40 }
        ensures { self.new ≡ both_totals self.old more.now }
    {
        self.entries += more.entries;
        self.degree = self.degree.max(more.degree);
        self.sum += more.sum;
    }
}

/// The sum of the coefficients from degree 0 to this one, which is at most `MAX_LETTERS`.
fn coefficient_sum(polynomial: &PolyView<'_>, degree: u32) -> i128
    requires { degree ≤ MAX_LETTERS }
    ensures sum { result ≡ sum_of (coefficients_to degree (coefficient polynomial.now)) }
    ensures small { unsigned_abs result ≤ 2 ^ 71 }
{
    let mut sum = 0;
    for k in 0..degree + 1 {
        sum += i128::from(polynomial.coefficient(k));
    }
    sum
}
