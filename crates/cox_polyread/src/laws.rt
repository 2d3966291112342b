//! What the text of a polynomial says of it. The function does nothing: its clauses are theorems.
ghost use Rattle.std.specs.Prelude.{◌≡◌, ℕ, ℤ, List};
ghost use Rattle.cox_poly.specs.PolynomialText.{polynomial_text};
ghost use Rattle.cox_poly.specs.Polynomial.{SameCoefficients};
ghost use Rattle.cox_polyread.specs.PolynomialReading.{IsTextOf};

/// The text determines the polynomial: coefficients that are written alike agree at each degree, and so there is one
/// polynomial at most with a text.
pub fn known_by_text()
    ensures coefficients { (f g : List ℤ) → polynomial_text f ≡ polynomial_text g → SameCoefficients f g }
    ensures one { (p r : List ℤ) (text : List ℕ) → IsTextOf p text → IsTextOf r text → p ≡ r }
{}
