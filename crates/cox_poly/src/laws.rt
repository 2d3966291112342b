//! Facts of polynomials that no single call states.
ghost use Rattle.std.specs.Prelude.{◌≡◌, ◌*◌, ◌+◌, ◌≤◌, ℕ, ℤ, List, unsigned_abs};
ghost use Rattle.cox_poly.specs.Coefficients.{Coefficients, plus, times_q, times_q_less_one};
ghost use Rattle.cox_poly.specs.Products.{product};
ghost use Rattle.cox_poly.specs.Size.{HasNormAtMost};
ghost use Rattle.cox_poly.specs.Polynomial.{IsPolynomial, SameCoefficients};

/// A polynomial is known by its coefficients: there is one list without trailing zeros that has
/// them.
pub fn known_by_coefficients()
    ensures { (p r : List ℤ) → IsPolynomial p → IsPolynomial r → SameCoefficients p r → p ≡ r }
{}

/// The sum of the absolute values of the coefficients bounds each coefficient, and those sums add
/// up in a sum and multiply in a product of polynomials.
pub fn norms()
    ensures coefficient { (f : Coefficients) (m k : ℕ) → HasNormAtMost f m → unsigned_abs (f k) ≤ m }
    ensures plus { (f g : Coefficients) (m n : ℕ) →
        HasNormAtMost f m → HasNormAtMost g n → HasNormAtMost (plus f g) (m + n) }
    ensures times_q { (f : Coefficients) (m : ℕ) →
        HasNormAtMost f m → HasNormAtMost (times_q f) m }
    ensures times_q_less_one { (f : Coefficients) (m : ℕ) →
        HasNormAtMost f m → HasNormAtMost (times_q_less_one f) (2 * m) }
    ensures product { (f g : Coefficients) (m n : ℕ) →
        HasNormAtMost f m → HasNormAtMost g n → HasNormAtMost (product f g) (m * n) }
{}
