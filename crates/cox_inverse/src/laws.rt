//! The laws of inverse Kazhdan-Lusztig polynomials, for every admissible integer matrix A. Each function does nothing: its clauses are
//! theorems.

ghost use Rattle.std.specs.Prelude.{◌≡◌, ℕ, ◌+◌, ◌-◌, ◌*◌, ◌<◌, ◌≤◌, ◌↔◌, List, [], ◌++◌, pos};
ghost use Rattle.cox_base.specs.Matrix.{IsWord};
ghost use Rattle.cox_base.specs.IntegerMatrix.{IntegerMatrix};
ghost use Rattle.cox_base.specs.Admissible.{IsAdmissible};
ghost use Rattle.cox_base.specs.Element.{SameElement};
ghost use Rattle.cox_base.specs.Length.{word_length};
ghost use Rattle.cox_base.specs.Bruhat.{IsBelow};
ghost use Rattle.cox_base.specs.SortedList.{IsListOf};
ghost use Rattle.cox_base.specs.Interval.{IsBetween};
ghost use Rattle.cox_poly.specs.Coefficients.{Coefficients, one_polynomial};
ghost use Rattle.cox_poly.specs.Products.{product};
ghost use Rattle.cox_rpoly.specs.RPolynomial.{r_polynomial};
ghost use Rattle.cox_rpoly.specs.Sign.{times_sign};
ghost use Rattle.cox_hecke.specs.Family.{Family};
ghost use Rattle.cox_hecke.specs.Operators.{basis};
ghost use Rattle.cox_hecke.specs.Sums.{sum_over};
ghost use Rattle.cox_hecke.specs.Row.{IsRow, IsKazhdanLusztig};
ghost use Rattle.cox_hecke.specs.ListedElements.{ListsEach, LiesBetween};
ghost use Rattle.cox_inverse.specs.InverseRow.{signed_term, IsInverseRow, IsInverse};
ghost use Rattle.cox_inverse.specs.Longest.{IsLongest};

/// Each element has exactly one inverse row, whichever of its words is taken. The sums of (-1)^(l(z)-l(x)) P(x,z) q(z) are the same over
/// any list that names each element between x and w once, by any of its words.
pub fn inverse_rows()
    ensures unique { (A : IntegerMatrix) → IsAdmissible A → (w : List ℕ) (q r : Family) → IsInverseRow A w q → IsInverseRow A w r
        → (x : List ℕ) (k : ℕ) → q x k ≡ r x k }
    ensures exists { (A : IntegerMatrix) → IsAdmissible A → (w : List ℕ) → (q : Family) × IsInverseRow A w q }
    ensures same { (A : IntegerMatrix) → IsAdmissible A → (v w : List ℕ) (q : Family) → SameElement A v w → IsInverseRow A v q
        → IsInverseRow A w q }
    ensures any_list { (A : IntegerMatrix) → IsAdmissible A → (w : List ℕ) (q : Family) → IsInverseRow A w q
        → (rows : List ℕ → Family) → ((z : List ℕ) → IsRow A z (rows z))
        → (x : List ℕ) (words : List (List ℕ)) → IsBelow A x w → ListsEach A (LiesBetween A x w) words
        → (k : ℕ) → sum_over words (signed_term A rows q x) k ≡ basis A w x k }
{}

/// There is exactly one Q(x,w). It depends on the elements alone, is 0 unless x <= w, and Q(w,w) = 1. Where x is shorter than w,
/// 2 deg Q(x,w) + 1 <= l(w) - l(x). From the other side, for each x <= w the sum of (-1)^(l(w)-l(z)) Q(x,z) P(z,w) over the z with
/// x <= z <= w is 1 where x = w, else 0 (Kazhdan and Lusztig 1979, section 3).
pub fn inverse_polynomials()
    ensures exists { (A : IntegerMatrix) → IsAdmissible A → (x w : List ℕ) → (f : Coefficients) × IsInverse A x w f }
    ensures unique { (A : IntegerMatrix) → IsAdmissible A → (x w : List ℕ) (f h : Coefficients) → IsInverse A x w f → IsInverse A x w h
        → (k : ℕ) → f k ≡ h k }
    ensures elements { (A : IntegerMatrix) → IsAdmissible A → (x y v w : List ℕ) (f : Coefficients) → SameElement A x y → SameElement A v w
        → IsInverse A x v f → IsInverse A y w f }
    ensures outside { (A : IntegerMatrix) → IsAdmissible A → (x w : List ℕ) (f : Coefficients) → ¬ IsBelow A x w → IsInverse A x w f
        → (k : ℕ) → f k ≡ pos 0 }
    ensures identity { (A : IntegerMatrix) → IsAdmissible A → (w : List ℕ) (f : Coefficients) → IsInverse A w w f
        → (k : ℕ) → f k ≡ one_polynomial k }
    ensures degree { (A : IntegerMatrix) → IsAdmissible A → (x w : List ℕ) (f : Coefficients) → IsInverse A x w f
        → (k : ℕ) → word_length A x < word_length A w → word_length A w ≤ word_length A x + 2 * k → f k ≡ pos 0 }
    ensures other_side { (A : IntegerMatrix) → IsAdmissible A
        → (inverses : List ℕ → Family) → ((z : List ℕ) → IsInverseRow A z (inverses z)) → (w : List ℕ) (p : Family) → IsRow A w p
        → (x : List ℕ) (between : List (List ℕ)) → IsBelow A x w → IsListOf (IsBetween A x w) between
        → (k : ℕ) → sum_over between (λ z. times_sign (word_length A w - word_length A z) (product (inverses z x) (p z))) k
        ≡ basis A w x k }
{}

/// The longest element w0 of a finite group: l(w0 x) = l(w0) - l(x), so no element is longer, and where none is longer it is the longest;
/// w0 w <= w0 x exactly where x <= w; it is its own inverse; and it is the only one (Humphreys 1.8; Björner and Brenti, 2.3).
pub fn longest()
    ensures length { (A : IntegerMatrix) → IsAdmissible A → (longest : List ℕ) → IsLongest A longest
        → (x : List ℕ) → word_length A (longest ++ x) + word_length A x ≡ word_length A longest }
    ensures longer_than_none { (A : IntegerMatrix) → IsAdmissible A → (longest : List ℕ) → IsLongest A longest
        → (x : List ℕ) → word_length A x ≤ word_length A longest }
    ensures order { (A : IntegerMatrix) → IsAdmissible A → (longest : List ℕ) → IsLongest A longest
        → (x w : List ℕ) → IsBelow A (longest ++ w) (longest ++ x) ↔ IsBelow A x w }
    ensures twice { (A : IntegerMatrix) → IsAdmissible A → (longest : List ℕ) → IsLongest A longest
        → SameElement A (longest ++ longest) [] }
    ensures by_length { (A : IntegerMatrix) → IsAdmissible A → (w : List ℕ) → IsWord A.rank w
        → ((x : List ℕ) → word_length A x ≤ word_length A w) → IsLongest A w }
    ensures one { (A : IntegerMatrix) → IsAdmissible A → (v w : List ℕ) → IsLongest A v → IsLongest A w → SameElement A v w }
{}

/// In a finite group, with the longest element w0, R(w0 w, w0 x) = R(x,w), and P(w0 w, w0 x) is Q(x,w) (Kazhdan and Lusztig 1979, theorem
/// 3.1).
pub fn finite_groups()
    ensures r_polynomials { (A : IntegerMatrix) → IsAdmissible A → (longest : List ℕ) → IsLongest A longest
        → (x w : List ℕ) (k : ℕ) → r_polynomial A (longest ++ w) (longest ++ x) k ≡ r_polynomial A x w k }
    ensures inversion { (A : IntegerMatrix) → IsAdmissible A → (longest : List ℕ) → IsLongest A longest
        → (x w : List ℕ) (f : Coefficients) → IsKazhdanLusztig A (longest ++ w) (longest ++ x) f → IsInverse A x w f }
{}
