//! The laws of the Hecke algebra and of Kazhdan-Lusztig polynomials, for every admissible integer matrix A. Each function does nothing: its
//! clauses are theorems. Elements are given by words; `left A s h` is T(s) h, by coefficients.

ghost use Rattle.std.specs.Prelude.{◌≡◌, ◌≢◌, ℕ, ◌+◌, ◌-◌, ◌*◌, ◌<◌, ◌≤◌, List, [], ◌∷◌, ◌++◌, length, reverse, All, ℤ, pos};
ghost use Rattle.cox_base.specs.declared.side.Side.{Side};
ghost use Rattle.cox_base.specs.declared.side.Side.TheVariants.{Left};
ghost use Rattle.cox_base.specs.Matrix.{IsLetter};
ghost use Rattle.cox_base.specs.IntegerMatrix.{IntegerMatrix};
ghost use Rattle.cox_base.specs.Admissible.{IsAdmissible};
ghost use Rattle.cox_base.specs.Element.{SameElement};
ghost use Rattle.cox_base.specs.Length.{word_length};
ghost use Rattle.cox_base.specs.Reduced.{IsReduced};
ghost use Rattle.cox_base.specs.Descents.{IsLeftDescent, IsRightDescent};
ghost use Rattle.cox_base.specs.Bruhat.{IsBelow};
ghost use Rattle.cox_base.specs.SortedList.{IsListOf};
ghost use Rattle.cox_base.specs.Interval.{IsBetween};
ghost use Rattle.cox_reflect.specs.LeastDescent.{IsLeastLeftDescent};
ghost use Rattle.cox_poly.specs.Coefficients.{Coefficients, one_polynomial, plus, times_q, times_q_less_one};
ghost use Rattle.cox_poly.specs.Products.{flip};
ghost use Rattle.cox_poly.specs.Multiples.{minus};
ghost use Rattle.cox_rpoly.specs.RPolynomial.{r_polynomial};
ghost use Rattle.cox_rpoly.specs.InverseOperators.{left_inverse, left_inverse_word};
ghost use Rattle.cox_rpoly.specs.Sign.{times_sign};
ghost use Rattle.cox_hecke.specs.Family.{Family, RespectsElements};
ghost use Rattle.cox_hecke.specs.Operators.{basis, left, right, right_inverse, left_word, right_word};
ghost use Rattle.cox_hecke.specs.Sums.{bar_sum};
ghost use Rattle.cox_hecke.specs.Bar.{IsCombination, bar};
ghost use Rattle.cox_hecke.specs.ClosedLists.{IsClosedUnder};
ghost use Rattle.cox_hecke.specs.Row.{IsRow, IsKazhdanLusztig, IsMu};
ghost use Rattle.cox_hecke.specs.ListedElements.{ListsEach, LiesBetween};
ghost use Rattle.cox_base.specs.SideDescents.{times_letter, IsDescent};
ghost use Rattle.cox_hecke.specs.Step.{IsCorrection};
ghost use Rattle.cox_hecke.specs.StepFamily.{step, Correction, AreCorrections, correction_sum, IsStepFamily};
ghost use Rattle.cox_hecke.specs.Needs.{IsNeeded};

/// Left and right multiplication commute, and T(s) and q T(s)^-1 undo each other, but for the factor q (Humphreys 7.1 to 7.4).
pub fn operators()
    ensures commute { (A : IntegerMatrix) → IsAdmissible A → (s t : ℕ) (h : Family) → IsLetter A.rank s → IsLetter A.rank t
        → RespectsElements A h → (x : List ℕ) (k : ℕ) → left A s (right A t h) x k ≡ right A t (left A s h) x k }
    ensures inverses_commute { (A : IntegerMatrix) → IsAdmissible A → (s t : ℕ) (h : Family) → IsLetter A.rank s → IsLetter A.rank t
        → RespectsElements A h → (x : List ℕ) (k : ℕ)
        → left_inverse A s (right_inverse A t h) x k ≡ right_inverse A t (left_inverse A s h) x k }
    ensures left_of_inverse { (A : IntegerMatrix) → IsAdmissible A → (s : ℕ) (h : Family) → IsLetter A.rank s → RespectsElements A h
        → (x : List ℕ) (k : ℕ) → left A s (left_inverse A s h) x k ≡ times_q (h x) k }
    ensures inverse_of_left { (A : IntegerMatrix) → IsAdmissible A → (s : ℕ) (h : Family) → IsLetter A.rank s → RespectsElements A h
        → (x : List ℕ) (k : ℕ) → left_inverse A s (left A s h) x k ≡ times_q (h x) k }
    ensures right_of_inverse { (A : IntegerMatrix) → IsAdmissible A → (s : ℕ) (h : Family) → IsLetter A.rank s → RespectsElements A h
        → (x : List ℕ) (k : ℕ) → right A s (right_inverse A s h) x k ≡ times_q (h x) k }
    ensures inverse_of_right { (A : IntegerMatrix) → IsAdmissible A → (s : ℕ) (h : Family) → IsLetter A.rank s → RespectsElements A h
        → (x : List ℕ) (k : ℕ) → right_inverse A s (right A s h) x k ≡ times_q (h x) k }
{}

/// What the operators make of a family that respects elements respects them.
pub fn respect()
    ensures left { (A : IntegerMatrix) → IsAdmissible A → (s : ℕ) (h : Family) → RespectsElements A h
        → RespectsElements A (left A s h) }
    ensures right { (A : IntegerMatrix) → IsAdmissible A → (s : ℕ) (h : Family) → RespectsElements A h
        → RespectsElements A (right A s h) }
    ensures left_inverse { (A : IntegerMatrix) → IsAdmissible A → (s : ℕ) (h : Family) → RespectsElements A h
        → RespectsElements A (left_inverse A s h) }
    ensures right_inverse { (A : IntegerMatrix) → IsAdmissible A → (s : ℕ) (h : Family) → RespectsElements A h
        → RespectsElements A (right_inverse A s h) }
{}

/// The product of the operators along a reduced word depends on the word's element alone. For a reduced word of w the product of the T(s)
/// is T(w), from the left and from the right, and the product of the q T(s)^-1 is the sum of the (-1)^(l(w)-l(x)) R(x,w) T(x): R is
/// defined by that of the normal form.
pub fn words()
    ensures left { (A : IntegerMatrix) → IsAdmissible A → (u v : List ℕ) (h : Family) → IsReduced A u → IsReduced A v
        → SameElement A u v → RespectsElements A h → (x : List ℕ) (k : ℕ) → left_word A u h x k ≡ left_word A v h x k }
    ensures right { (A : IntegerMatrix) → IsAdmissible A → (u v : List ℕ) (h : Family) → IsReduced A u → IsReduced A v
        → SameElement A u v → RespectsElements A h → (x : List ℕ) (k : ℕ) → right_word A u h x k ≡ right_word A v h x k }
    ensures left_inverse { (A : IntegerMatrix) → IsAdmissible A → (u v : List ℕ) (h : Family) → IsReduced A u → IsReduced A v
        → SameElement A u v → RespectsElements A h → (x : List ℕ) (k : ℕ) → left_inverse_word A u h x k ≡ left_inverse_word A v h x k }
    ensures basis { (A : IntegerMatrix) → IsAdmissible A → (u : List ℕ) → IsReduced A u
        → (x : List ℕ) (k : ℕ) → left_word A u (basis A []) x k ≡ basis A u x k }
    ensures right_basis { (A : IntegerMatrix) → IsAdmissible A → (u : List ℕ) → IsReduced A u
        → (x : List ℕ) (k : ℕ) → right_word A u (basis A []) x k ≡ basis A u x k }
    ensures inverse_basis { (A : IntegerMatrix) → IsAdmissible A → (u : List ℕ) → IsReduced A u → (x : List ℕ) (k : ℕ)
        → left_inverse_word A u (basis A []) x k ≡ times_sign (length u - word_length A x) (r_polynomial A x u) k }
{}

/// Bar respects multiplication by 1 + T(s): the sums of R(x,y) h(y), over a list that is closed under s, give those of (1 + T(s)) h.
pub fn bar_sums()
    ensures product { (A : IntegerMatrix) (s : ℕ) (h : Family) (x : List ℕ) (k : ℕ) → step Left A s h x k ≡ plus (h x) (left A s h x) k }
    ensures shorter { (A : IntegerMatrix) → IsAdmissible A → (s : ℕ) (h : Family) (words : List (List ℕ)) → IsLetter A.rank s
        → RespectsElements A h → IsClosedUnder A s words → (x : List ℕ) (k : ℕ) → IsLeftDescent A x s
        → bar_sum A words (step Left A s h) x k ≡ plus (bar_sum A words h x) (bar_sum A words h (s ∷ x)) k }
    ensures longer { (A : IntegerMatrix) → IsAdmissible A → (s : ℕ) (h : Family) (words : List (List ℕ)) → IsLetter A.rank s
        → RespectsElements A h → IsClosedUnder A s words → (x : List ℕ) (k : ℕ) → ¬ IsLeftDescent A x s
        → bar_sum A words (step Left A s h) x k ≡ times_q (plus (bar_sum A words h x) (bar_sum A words h (s ∷ x))) k }
{}

/// Bar takes combinations of the T(x) with x <= w to such combinations, and is its own inverse (Kazhdan and Lusztig 1979, section 1;
/// Humphreys 7.7). It is q^n times bar that is meant, each time.
pub fn bar_involution()
    ensures combination { (A : IntegerMatrix) → IsAdmissible A → (n : ℕ) (w : List ℕ) (h : Family) → IsCombination A n w h
        → (words : List (List ℕ)) → ListsEach A (λ y. IsBelow A y w) words → IsCombination A n w (bar A n words h) }
    ensures twice { (A : IntegerMatrix) → IsAdmissible A → (n : ℕ) (w : List ℕ) (h : Family) → IsCombination A n w h
        → (words : List (List ℕ)) → ListsEach A (λ y. IsBelow A y w) words
        → (x : List ℕ) (k : ℕ) → bar A n words (bar A n words h) x k ≡ h x k }
{}

/// Rows and bar (Kazhdan and Lusztig 1979, theorem 1.1; Humphreys 7.9). Let h be the combination of the T(x) with x <= w whose coefficients
/// are the row of w. Then q^l(w) times bar of h is h: so bar leaves q^(-l(w)/2) h alone. And a combination of the T(x) with x <= w that bar
/// leaves alone so is the row of w, where it is 1 at w and keeps the bound on degrees. That there is exactly one such is the law `rows`.
pub fn bar_invariance()
    ensures combination { (A : IntegerMatrix) → IsAdmissible A → (w : List ℕ) (p : Family) → IsRow A w p
        → IsCombination A (word_length A w) w p }
    ensures fixed { (A : IntegerMatrix) → IsAdmissible A → (w : List ℕ) (p : Family) → IsRow A w p
        → (words : List (List ℕ)) → ListsEach A (λ y. IsBelow A y w) words
        → (x : List ℕ) (k : ℕ) → bar A (word_length A w) words p x k ≡ p x k }
    ensures only { (A : IntegerMatrix) → IsAdmissible A → (w : List ℕ) (p : Family) → IsCombination A (word_length A w) w p
        → ((k : ℕ) → p w k ≡ one_polynomial k)
        → ((x : List ℕ) (k : ℕ) → word_length A x < word_length A w → word_length A w ≤ word_length A x + 2 * k → p x k ≡ pos 0)
        → (words : List (List ℕ)) → ListsEach A (λ y. IsBelow A y w) words
        → ((x : List ℕ) (k : ℕ) → bar A (word_length A w) words p x k ≡ p x k) → IsRow A w p }
{}

/// R obeys its recursion for every left descent and for every right descent of w; it is the same at inverses; and
/// q^d R(x,w)(1/q) = (-1)^d R(x,w), where d = l(w) - l(x) (Humphreys 7.5).
pub fn r_polynomials()
    ensures left_shorter { (A : IntegerMatrix) → IsAdmissible A → (x w : List ℕ) (s : ℕ) → IsLeftDescent A w s → IsLeftDescent A x s
        → (k : ℕ) → r_polynomial A x w k ≡ r_polynomial A (s ∷ x) (s ∷ w) k }
    ensures left_longer { (A : IntegerMatrix) → IsAdmissible A → (x w : List ℕ) (s : ℕ) → IsLeftDescent A w s → ¬ IsLeftDescent A x s
        → (k : ℕ) → r_polynomial A x w k
        ≡ plus (times_q_less_one (r_polynomial A (s ∷ x) w)) (times_q (r_polynomial A (s ∷ x) (s ∷ w))) k }
    ensures left_moved { (A : IntegerMatrix) → IsAdmissible A → (x w : List ℕ) (s : ℕ) → IsLeftDescent A w s → ¬ IsLeftDescent A x s
        → (k : ℕ) → r_polynomial A (s ∷ x) w k ≡ r_polynomial A x (s ∷ w) k }
    ensures right_shorter { (A : IntegerMatrix) → IsAdmissible A → (x w : List ℕ) (s : ℕ) → IsRightDescent A w s → IsRightDescent A x s
        → (k : ℕ) → r_polynomial A x w k ≡ r_polynomial A (x ++ s ∷ []) (w ++ s ∷ []) k }
    ensures right_longer { (A : IntegerMatrix) → IsAdmissible A → (x w : List ℕ) (s : ℕ) → IsRightDescent A w s → ¬ IsRightDescent A x s
        → (k : ℕ) → r_polynomial A x w k
        ≡ plus (times_q_less_one (r_polynomial A (x ++ s ∷ []) w)) (times_q (r_polynomial A (x ++ s ∷ []) (w ++ s ∷ []))) k }
    ensures right_moved { (A : IntegerMatrix) → IsAdmissible A → (x w : List ℕ) (s : ℕ) → IsRightDescent A w s → ¬ IsRightDescent A x s
        → (k : ℕ) → r_polynomial A (x ++ s ∷ []) w k ≡ r_polynomial A x (w ++ s ∷ []) k }
    ensures inverse { (A : IntegerMatrix) → IsAdmissible A → (x w : List ℕ) (k : ℕ)
        → r_polynomial A (reverse x) (reverse w) k ≡ r_polynomial A x w k }
    ensures flipped { (A : IntegerMatrix) → IsAdmissible A → (x w : List ℕ) (d : ℕ) → word_length A w ≡ word_length A x + d
        → (k : ℕ) → flip d (r_polynomial A x w) k ≡ times_sign d (r_polynomial A x w) k }
{}

/// There is a list of the elements between any two in ShortLex order. Such a list names each of them once, and no other.
pub fn lists()
    ensures exists { (A : IntegerMatrix) → IsAdmissible A → (x w : List ℕ) → (words : List (List ℕ)) × IsListOf (IsBetween A x w) words }
    ensures names { (A : IntegerMatrix) → IsAdmissible A → (x w : List ℕ) (words : List (List ℕ)) → IsListOf (IsBetween A x w) words
        → ListsEach A (LiesBetween A x w) words }
{}

/// Each element has exactly one row, whichever of its words is taken (Kazhdan and Lusztig 1979, theorem 1.1; Humphreys 7.9 to 7.11). The
/// sums of R(x,y) p(y) are the same over any list that names each element between x and w once, by any of its words.
pub fn rows()
    ensures unique { (A : IntegerMatrix) → IsAdmissible A → (w : List ℕ) (p r : Family) → IsRow A w p → IsRow A w r
        → (x : List ℕ) (k : ℕ) → p x k ≡ r x k }
    ensures exists { (A : IntegerMatrix) → IsAdmissible A → (w : List ℕ) → (p : Family) × IsRow A w p }
    ensures same { (A : IntegerMatrix) → IsAdmissible A → (v w : List ℕ) (p : Family) → SameElement A v w → IsRow A v p → IsRow A w p }
    ensures any_list { (A : IntegerMatrix) → IsAdmissible A → (w : List ℕ) (p : Family) → IsRow A w p
        → (x : List ℕ) (words : List (List ℕ)) → IsBelow A x w → ListsEach A (LiesBetween A x w) words
        → (k : ℕ) → flip (word_length A w - word_length A x) (p x) k ≡ bar_sum A words p x k }
{}

/// There is exactly one P(x,w): what every row of w has at x. It depends on the elements alone, and is 0 unless x <= w. P(sx,w) = P(x,w)
/// for each left descent s of w, P(xs,w) = P(x,w) for each right descent, and P(x,w) = P(x^-1,w^-1).
pub fn polynomials()
    ensures exists { (A : IntegerMatrix) → IsAdmissible A → (x w : List ℕ) → (f : Coefficients) × IsKazhdanLusztig A x w f }
    ensures unique { (A : IntegerMatrix) → IsAdmissible A → (x w : List ℕ) (f h : Coefficients) → IsKazhdanLusztig A x w f
        → IsKazhdanLusztig A x w h → (k : ℕ) → f k ≡ h k }
    ensures row { (A : IntegerMatrix) (w : List ℕ) (p : Family) → IsRow A w p → (x : List ℕ) → IsKazhdanLusztig A x w (p x) }
    ensures elements { (A : IntegerMatrix) → IsAdmissible A → (x y v w : List ℕ) (f : Coefficients) → SameElement A x y → SameElement A v w
        → IsKazhdanLusztig A x v f → IsKazhdanLusztig A y w f }
    ensures outside { (A : IntegerMatrix) → IsAdmissible A → (x w : List ℕ) (f : Coefficients) → ¬ IsBelow A x w → IsKazhdanLusztig A x w f
        → (k : ℕ) → f k ≡ pos 0 }
    ensures left { (A : IntegerMatrix) → IsAdmissible A → (x w : List ℕ) (s : ℕ) (f : Coefficients) → IsLeftDescent A w s
        → IsKazhdanLusztig A x w f → IsKazhdanLusztig A (s ∷ x) w f }
    ensures right { (A : IntegerMatrix) → IsAdmissible A → (x w : List ℕ) (s : ℕ) (f : Coefficients) → IsRightDescent A w s
        → IsKazhdanLusztig A x w f → IsKazhdanLusztig A (x ++ s ∷ []) w f }
    ensures inverse { (A : IntegerMatrix) → IsAdmissible A → (x w : List ℕ) (f : Coefficients) → IsKazhdanLusztig A x w f
        → IsKazhdanLusztig A (reverse x) (reverse w) f }
{}

/// There is exactly one mu(u,w). If it is not 0 and s is a left descent of w and not of u, then u = sw, and mu(sw,w) is 1; and the same on
/// the right (Kazhdan and Lusztig 1979, 2.3).
pub fn mu()
    ensures exists { (A : IntegerMatrix) → IsAdmissible A → (u w : List ℕ) → (m : ℤ) × IsMu A u w m }
    ensures unique { (A : IntegerMatrix) → IsAdmissible A → (u w : List ℕ) (m n : ℤ) → IsMu A u w m → IsMu A u w n → m ≡ n }
    ensures inverse { (A : IntegerMatrix) → IsAdmissible A → (u w : List ℕ) (m : ℤ) → IsMu A u w m → IsMu A (reverse u) (reverse w) m }
    ensures left { (A : IntegerMatrix) → IsAdmissible A → (w u : List ℕ) (s : ℕ) (m : ℤ) → IsMu A u w m → m ≢ pos 0 → IsLeftDescent A w s
        → ¬ IsLeftDescent A u s → SameElement A u (s ∷ w) }
    ensures right { (A : IntegerMatrix) → IsAdmissible A → (w u : List ℕ) (s : ℕ) (m : ℤ) → IsMu A u w m → m ≢ pos 0 → IsRightDescent A w s
        → ¬ IsRightDescent A u s → SameElement A u (w ++ s ∷ []) }
    ensures left_shift { (A : IntegerMatrix) → IsAdmissible A → (w : List ℕ) (s : ℕ) → IsLeftDescent A w s → IsMu A (s ∷ w) w (pos 1) }
    ensures right_shift { (A : IntegerMatrix) → IsAdmissible A → (w : List ℕ) (s : ℕ) → IsRightDescent A w s
        → IsMu A (w ++ s ∷ []) w (pos 1) }
{}

/// The recursion (Kazhdan and Lusztig 1979, 2.2.c; Humphreys 7.11): for any descent s of w, on either side, (1 + T(s)) times the row of sw,
/// less its corrections, is the row of w. The corrections have a list, so there is a step family by any descent, and it is the row.
pub fn recursion()
    ensures rows { (A : IntegerMatrix) → IsAdmissible A → (side : Side) (w : List ℕ) (s : ℕ) → IsDescent side A w s
        → (p : Family) → IsRow A (times_letter side s w) p
        → (list : List Correction) → AreCorrections side A s (times_letter side s w) list
        → (lower : List ℕ → Family) → All (λ c. IsRow A c.element (lower c.element)) list
        → (r : Family) → IsRow A w r → (x : List ℕ) (k : ℕ) → r x k ≡ minus (step side A s p x) (correction_sum A w lower list x) k }
    ensures corrections { (A : IntegerMatrix) → IsAdmissible A → (side : Side) (w : List ℕ) (s : ℕ) → IsDescent side A w s
        → (list : List Correction) × AreCorrections side A s (times_letter side s w) list }
    ensures family { (A : IntegerMatrix) → IsAdmissible A → (side : Side) (w : List ℕ) (s : ℕ) (f : Family) → IsDescent side A w s
        → IsStepFamily side A s w f → IsRow A w f }
    ensures exists { (A : IntegerMatrix) → IsAdmissible A → (side : Side) (w : List ℕ) (s : ℕ) → IsDescent side A w s
        → (f : Family) × IsStepFamily side A s w f }
{}

/// Need(w) is a set of elements. It has w, the element that the step to w by its least left descent starts from, and each element that
/// corrects this step. It has what each of its members needs.
pub fn needs()
    ensures itself { (A : IntegerMatrix) (w : List ℕ) → IsNeeded A w w }
    ensures shorter { (A : IntegerMatrix) (w : List ℕ) (s : ℕ) → IsLeastLeftDescent A w s → IsNeeded A w (s ∷ w) }
    ensures corrected { (A : IntegerMatrix) (w : List ℕ) (s : ℕ) → IsLeastLeftDescent A w s → (u : List ℕ) (m : ℤ)
        → IsCorrection Left A s (s ∷ w) u m → IsNeeded A w u }
    ensures elements { (A : IntegerMatrix) → IsAdmissible A → (w y z : List ℕ) → SameElement A y z → IsNeeded A w y → IsNeeded A w z }
    ensures transitive { (A : IntegerMatrix) → IsAdmissible A → (w z y : List ℕ) → IsNeeded A w z → IsNeeded A z y → IsNeeded A w y }
{}
