//! The laws of R-polynomials (Kazhdan and Lusztig 1979; Humphreys 7.4, 7.5). Each function does nothing: its clauses are theorems.

ghost use Rattle.std.specs.Prelude.{◌≡◌, ℕ, ◌+◌, ◌^◌, List, ◌∷◌};
ghost use Rattle.cox_base.specs.Bruhat.{IsBelow};
ghost use Rattle.cox_base.specs.Element.{SameElement};
ghost use Rattle.cox_base.specs.IntegerMatrix.{IntegerMatrix};
ghost use Rattle.cox_base.specs.Admissible.{IsAdmissible};
ghost use Rattle.cox_base.specs.Length.{word_length};
ghost use Rattle.cox_base.specs.Descents.{IsLeftDescent};
ghost use Rattle.cox_reflect.specs.LeastDescent.{IsLeastLeftDescent};
ghost use Rattle.cox_poly.specs.Coefficients.{zero_polynomial, one_polynomial, plus, times_q, times_q_less_one};
ghost use Rattle.cox_poly.specs.Size.{HasNormAtMost, HasDegreeAtMost};
ghost use Rattle.cox_rpoly.specs.RPolynomial.{r_polynomial};

/// R(w,w) = 1, and R(x,w) = 0 unless x <= w.
pub fn values()
    ensures one { (A : IntegerMatrix) → IsAdmissible A → (w : List ℕ) (k : ℕ) → r_polynomial A w w k ≡ one_polynomial k }
    ensures zero { (A : IntegerMatrix) → IsAdmissible A → (x w : List ℕ) → ¬ IsBelow A x w → (k : ℕ)
        → r_polynomial A x w k ≡ zero_polynomial k }
{}

/// R depends on the elements alone, and not on their words.
pub fn elements()
    ensures { (A : IntegerMatrix) → IsAdmissible A → (x y v w : List ℕ) → SameElement A x y → SameElement A v w
        → (k : ℕ) → r_polynomial A x v k ≡ r_polynomial A y w k }
{}

/// For the least left descent s of w: R(x,w) = R(sx,sw) where sx < x, else R(x,w) = (q-1) R(sx,w) + q R(sx,sw), and R(sx,w) = R(x,sw).
/// With the values at w = e this determines R, and the code goes by it.
pub fn recursion()
    ensures shorter { (A : IntegerMatrix) → IsAdmissible A → (x w : List ℕ) (s : ℕ) → IsLeastLeftDescent A w s → IsLeftDescent A x s
        → (k : ℕ) → r_polynomial A x w k ≡ r_polynomial A (s ∷ x) (s ∷ w) k }
    ensures longer { (A : IntegerMatrix) → IsAdmissible A → (x w : List ℕ) (s : ℕ) → IsLeastLeftDescent A w s → ¬ IsLeftDescent A x s
        → (k : ℕ) → r_polynomial A x w k ≡ plus (times_q_less_one (r_polynomial A (s ∷ x) w)) (times_q (r_polynomial A (s ∷ x) (s ∷ w))) k }
    ensures moved { (A : IntegerMatrix) → IsAdmissible A → (x w : List ℕ) (s : ℕ) → IsLeastLeftDescent A w s → ¬ IsLeftDescent A x s
        → (k : ℕ) → r_polynomial A (s ∷ x) w k ≡ r_polynomial A x (s ∷ w) k }
{}

/// Where x <= w and d = l(w) - l(x), the absolute coefficients of R(x,w) add up to at most 3^d, and its degree is at most d.
pub fn bounds()
    ensures norm { (A : IntegerMatrix) → IsAdmissible A → (x w : List ℕ) (d : ℕ) → IsBelow A x w → word_length A w ≡ word_length A x + d
        → HasNormAtMost (r_polynomial A x w) (3 ^ d) }
    ensures degree { (A : IntegerMatrix) → IsAdmissible A → (x w : List ℕ) (d : ℕ) → IsBelow A x w → word_length A w ≡ word_length A x + d
        → HasDegreeAtMost (r_polynomial A x w) d }
{}
