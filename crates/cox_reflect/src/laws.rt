//! The laws of the group of an admissible integer matrix A. Each function does nothing: its clauses are theorems.
//! Words are lists of letters, and `SameElement A u v` says that u and v name one element.

ghost use Rattle.std.specs.declared.cmp.Ordering.TheVariants.{Less};
ghost use Rattle.std.specs.Prelude.{pos, ◌<ℤ◌, ◌≡◌, ◌≢◌, ℕ, ◌+◌, ◌%◌, ◌<◌, ◌≤◌, ◌⊎◌, ◌↔◌, List, [], ◌∷◌, ◌++◌, length, reverse};
ghost use Rattle.cox_base.specs.Bruhat.{IsBelow};
ghost use Rattle.cox_base.specs.Element.{SameElement, matrix};
ghost use Rattle.cox_base.specs.IntegerMatrix.{IntegerMatrix, integer_matrix, entry_of};
ghost use Rattle.cox_base.specs.Admissible.{IsAdmissible, HasOrder, IsCoxeterMatrix};
ghost use Rattle.cox_base.specs.Length.{word_length};
ghost use Rattle.cox_base.specs.Reduced.{IsReduced};
ghost use Rattle.cox_base.specs.Descents.{IsLeftDescent, IsRightDescent};
ghost use Rattle.cox_base.specs.Matrix.{CoxeterMatrix, IsLetter, IsWord, label};
ghost use Rattle.cox_base.specs.ShortLex.{normal_form, shortlex_cmp};
ghost use Rattle.cox_reflect.specs.Chain.{IsChain};
ghost use Rattle.cox_reflect.specs.Exchange.{LeavesOneOut, LeavesTwoOut};
ghost use Rattle.cox_reflect.specs.Relations.{AreRelated};
ghost use Rattle.cox_reflect.specs.Root.{IsNonnegativeRoot, IsNonpositiveRoot, IsZeroRoot};
ghost use Rattle.cox_reflect.specs.Subword.{HasSubword};
ghost use Rattle.cox_reflect.specs.Transpose.{transposed};
ghost use Rattle.cox_reflect.specs.DerivedWords.{reflection};

/// The integer matrix of a Coxeter matrix is admissible, its finite labels are the orders m of the braid relations,
/// and the transpose of an admissible matrix is admissible.
pub fn admissible()
    ensures of_coxeter_matrix { (g : CoxeterMatrix) → IsCoxeterMatrix g → IsAdmissible (integer_matrix g) }
    ensures orders { (g : CoxeterMatrix) → IsCoxeterMatrix g → (s t m : ℕ) → IsLetter g.rank s → IsLetter g.rank t → s ≢ t
        → HasOrder (entry_of g s t) (entry_of g t s) m ↔ ((label g s t ≡ m) × (m ≢ 0)) }
    ensures of_transpose { (A : IntegerMatrix) → IsAdmissible A → IsAdmissible (transposed A) }
{}

/// To name one element is an equivalence that respects products, and the reversed word names the inverse.
pub fn elements()
    ensures reflexive { (A : IntegerMatrix) → IsAdmissible A → (u : List ℕ) → SameElement A u u }
    ensures symmetric { (A : IntegerMatrix) → IsAdmissible A → (u v : List ℕ) → SameElement A u v → SameElement A v u }
    ensures transitive { (A : IntegerMatrix) → IsAdmissible A → (u v w : List ℕ) → SameElement A u v → SameElement A v w
        → SameElement A u w }
    ensures product { (A : IntegerMatrix) → IsAdmissible A → (u u' v v' : List ℕ) → SameElement A u u' → SameElement A v v'
        → SameElement A (u ++ v) (u' ++ v') }
    ensures inverse { (A : IntegerMatrix) → IsAdmissible A → (u : List ℕ) → SameElement A (reverse u ++ u) [] }
{}

/// The normal form of u is a reduced word of u's element, and the first one in ShortLex order. It begins with the least left descent.
pub fn normal_forms()
    ensures names { (A : IntegerMatrix) → IsAdmissible A → (u : List ℕ) → SameElement A (normal_form A u) u }
    ensures word { (A : IntegerMatrix) → IsAdmissible A → (u : List ℕ) → IsWord A.rank (normal_form A u) }
    ensures reduced { (A : IntegerMatrix) → IsAdmissible A → (u : List ℕ) → IsReduced A (normal_form A u) }
    ensures least { (A : IntegerMatrix) → IsAdmissible A → (u v : List ℕ) → SameElement A v u → word_length A u ≤ length v }
    ensures first { (A : IntegerMatrix) → IsAdmissible A → (u v : List ℕ) → SameElement A v u → shortlex_cmp v (normal_form A u) ≢ Less }

    // no other word has that property
    ensures unique { (A : IntegerMatrix) → IsAdmissible A → (u w : List ℕ) → SameElement A w u
        → ((v : List ℕ) → SameElement A v u → shortlex_cmp v w ≢ Less) → w ≡ normal_form A u }
    ensures same { (A : IntegerMatrix) → IsAdmissible A → (u v : List ℕ) → SameElement A u v ↔ (normal_form A u ≡ normal_form A v) }
    ensures first_letter { (A : IntegerMatrix) → IsAdmissible A → (u : List ℕ) (s : ℕ) → IsLeftDescent A u s
        → ((t : ℕ) → t < s → ¬ IsLeftDescent A u t) → normal_form A u ≡ s ∷ normal_form A (s ∷ u) }
    ensures empty { (A : IntegerMatrix) → IsAdmissible A → (u : List ℕ) → ((s : ℕ) → ¬ IsLeftDescent A u s) ↔ (normal_form A u ≡ []) }
{}

/// A letter changes the length by one, on either side; the length of a word and that of its element are both even or both odd.
pub fn lengths()
    ensures product { (A : IntegerMatrix) → IsAdmissible A → (u v : List ℕ) → word_length A (u ++ v) ≤ word_length A u + word_length A v }
    ensures inverse { (A : IntegerMatrix) → IsAdmissible A → (u : List ℕ) → word_length A (reverse u) ≡ word_length A u }
    ensures letter_right { (A : IntegerMatrix) → IsAdmissible A → (u : List ℕ) (s : ℕ) → IsLetter A.rank s
        → (word_length A (u ++ s ∷ []) ≡ word_length A u + 1) ⊎ (word_length A u ≡ word_length A (u ++ s ∷ []) + 1) }
    ensures letter_left { (A : IntegerMatrix) → IsAdmissible A → (u : List ℕ) (s : ℕ) → IsLetter A.rank s
        → (word_length A (s ∷ u) ≡ word_length A u + 1) ⊎ (word_length A u ≡ word_length A (s ∷ u) + 1) }
    ensures parity { (A : IntegerMatrix) → IsAdmissible A → (u : List ℕ) → IsWord A.rank u → length u % 2 ≡ word_length A u % 2 }
{}

/// Every root is nonnegative or nonpositive, and none is 0. Its sign tells whether the letter makes the element longer or shorter
/// (Humphreys 5.4).
pub fn positivity()
    ensures sign { (A : IntegerMatrix) → IsAdmissible A → (w : List ℕ) (s : ℕ) → IsLetter A.rank s
        → IsNonnegativeRoot A w s ⊎ IsNonpositiveRoot A w s }
    ensures not_zero { (A : IntegerMatrix) → IsAdmissible A → (w : List ℕ) (s : ℕ) → IsLetter A.rank s → ¬ IsZeroRoot A w s }
    ensures longer_right { (A : IntegerMatrix) → IsAdmissible A → (w : List ℕ) (s : ℕ) → IsLetter A.rank s
        → (word_length A w < word_length A (w ++ s ∷ [])) ↔ IsNonnegativeRoot A w s }
    ensures shorter_right { (A : IntegerMatrix) → IsAdmissible A → (w : List ℕ) (s : ℕ) → IsLetter A.rank s
        → IsRightDescent A w s ↔ IsNonpositiveRoot A w s }
    ensures negative_coordinate { (A : IntegerMatrix) → IsAdmissible A → (w : List ℕ) (s : ℕ) → IsLetter A.rank s
        → IsRightDescent A w s ↔ ((i : ℕ) × IsLetter A.rank i × (matrix A w i s <ℤ pos 0)) }
    ensures longer_left { (A : IntegerMatrix) → IsAdmissible A → (w : List ℕ) (s : ℕ) → IsLetter A.rank s
        → (word_length A w < word_length A (s ∷ w)) ↔ IsNonnegativeRoot A (reverse w) s }
    ensures shorter_left { (A : IntegerMatrix) → IsAdmissible A → (w : List ℕ) (s : ℕ) → IsLetter A.rank s
        → IsLeftDescent A w s ↔ IsNonpositiveRoot A (reverse w) s }
{}

/// Where a letter, or any reflection, does not make the element of a word longer, one letter of the word can be left out instead;
/// of a word that is not reduced two can; and equal roots have equal reflections (Humphreys 5.7, 5.8).
pub fn exchange()
    ensures right { (A : IntegerMatrix) → IsAdmissible A → (u : List ℕ) (s : ℕ) → IsRightDescent A u s → LeavesOneOut A u (u ++ s ∷ []) }
    ensures left { (A : IntegerMatrix) → IsAdmissible A → (u : List ℕ) (s : ℕ) → IsLeftDescent A u s → LeavesOneOut A u (s ∷ u) }
    ensures strong { (A : IntegerMatrix) → IsAdmissible A → (u y : List ℕ) (s : ℕ) → IsLetter A.rank s
        → word_length A (u ++ reflection y s) ≤ word_length A u → LeavesOneOut A u (u ++ reflection y s) }
    ensures reflection_changes_length { (A : IntegerMatrix) → IsAdmissible A → (u y : List ℕ) (s : ℕ) → IsLetter A.rank s
        → word_length A (u ++ reflection y s) ≢ word_length A u }
    ensures equal_roots { (A : IntegerMatrix) → IsAdmissible A → (x y : List ℕ) (s t : ℕ) → IsLetter A.rank s → IsLetter A.rank t
        → ((i : ℕ) → IsLetter A.rank i → matrix A x i s ≡ matrix A y i t) → SameElement A (reflection x s) (reflection y t) }
    ensures deletion { (A : IntegerMatrix) → IsAdmissible A → (u : List ℕ) → IsWord A.rank u → word_length A u < length u
        → LeavesTwoOut A u u }
{}

/// If l(swt) = l(w) and l(sw) = l(wt) then sw = wt.
pub fn sides()
    ensures { (A : IntegerMatrix) → IsAdmissible A → (s t : ℕ) (w : List ℕ) → IsLetter A.rank s
        → word_length A (s ∷ w ++ t ∷ []) ≡ word_length A w → word_length A (s ∷ w) ≡ word_length A (w ++ t ∷ [])
        → SameElement A (s ∷ w) (w ++ t ∷ []) }
{}

/// Two words over the letters name one element exactly where the Coxeter relations lead from one to the other (Humphreys 5.4).
pub fn faithful()
    ensures { (A : IntegerMatrix) → IsAdmissible A → (u v : List ℕ) → IsWord A.rank u → IsWord A.rank v
        → SameElement A u v ↔ AreRelated A u v }
{}

/// The transposed matrix has the same elements, normal forms and signs of roots, and equal roots of A are equal roots of it.
pub fn transpose()
    ensures same { (A : IntegerMatrix) → IsAdmissible A → (u v : List ℕ) → IsWord A.rank u → IsWord A.rank v
        → SameElement A u v ↔ SameElement (transposed A) u v }
    ensures normal_forms { (A : IntegerMatrix) → IsAdmissible A → (u : List ℕ) → IsWord A.rank u
        → normal_form (transposed A) u ≡ normal_form A u }
    ensures signs { (A : IntegerMatrix) → IsAdmissible A → (w : List ℕ) (s : ℕ) → IsWord A.rank w → IsLetter A.rank s
        → IsNonnegativeRoot A w s ↔ IsNonnegativeRoot (transposed A) w s }
    ensures equal_roots { (A : IntegerMatrix) → IsAdmissible A → (v w : List ℕ) (s t : ℕ) → IsWord A.rank v → IsWord A.rank w
        → IsLetter A.rank s → IsLetter A.rank t → ((i : ℕ) → IsLetter A.rank i → matrix A v i s ≡ matrix A w i t)
        → (i : ℕ) → IsLetter A.rank i → matrix (transposed A) v i s ≡ matrix (transposed A) w i t }
{}

/// Bruhat order by chains of reflections, and by the subwords of any reduced word (Humphreys 5.9, 5.10).
pub fn bruhat()
    ensures chains { (A : IntegerMatrix) → IsAdmissible A → (y w : List ℕ) → IsBelow A y w ↔ IsChain A y w }
    ensures subwords { (A : IntegerMatrix) → IsAdmissible A → (y w u : List ℕ) → IsReduced A u → SameElement A u w
        → IsBelow A y w ↔ HasSubword A u y }
    ensures subwords_of_any { (A : IntegerMatrix) → IsAdmissible A → (y w u : List ℕ) → SameElement A u w → IsBelow A y w
        → HasSubword A u y }
    ensures inverse { (A : IntegerMatrix) → IsAdmissible A → (y w : List ℕ) → IsBelow A y w ↔ IsBelow A (reverse y) (reverse w) }
{}

/// Bruhat order is a partial order of elements, with the identity at the bottom; lengths rise with it.
pub fn bruhat_order()
    ensures reflexive { (A : IntegerMatrix) → IsAdmissible A → (y w : List ℕ) → SameElement A y w → IsBelow A y w }
    ensures transitive { (A : IntegerMatrix) → IsAdmissible A → (x y w : List ℕ) → IsBelow A x y → IsBelow A y w → IsBelow A x w }
    ensures antisymmetric { (A : IntegerMatrix) → IsAdmissible A → (y w : List ℕ) → IsBelow A y w → IsBelow A w y → SameElement A y w }
    ensures bottom { (A : IntegerMatrix) → IsAdmissible A → (w : List ℕ) → IsBelow A [] w }
    ensures lengths { (A : IntegerMatrix) → IsAdmissible A → (y w : List ℕ) → IsBelow A y w → word_length A y ≤ word_length A w }
    ensures at_identity { (A : IntegerMatrix) → IsAdmissible A → (y : List ℕ) → IsBelow A y [] ↔ SameElement A y [] }
    ensures equal_lengths { (A : IntegerMatrix) → IsAdmissible A → (y w : List ℕ) → IsBelow A y w → word_length A y ≡ word_length A w
        → SameElement A y w }
{}

/// Lifting: for s with sw < w, y is below w exactly where the shorter of y and sy is below sw; and the same on the right.
pub fn bruhat_lifting()
    ensures left_shorter { (A : IntegerMatrix) → IsAdmissible A → (y w : List ℕ) (s : ℕ) → IsLeftDescent A w s → IsLeftDescent A y s
        → IsBelow A y w ↔ IsBelow A (s ∷ y) (s ∷ w) }
    ensures left_longer { (A : IntegerMatrix) → IsAdmissible A → (y w : List ℕ) (s : ℕ) → IsLeftDescent A w s → ¬ IsLeftDescent A y s
        → IsBelow A y w ↔ IsBelow A y (s ∷ w) }
    ensures right_shorter { (A : IntegerMatrix) → IsAdmissible A → (y w : List ℕ) (s : ℕ) → IsRightDescent A w s → IsRightDescent A y s
        → IsBelow A y w ↔ IsBelow A (y ++ s ∷ []) (w ++ s ∷ []) }
    ensures right_longer { (A : IntegerMatrix) → IsAdmissible A → (y w : List ℕ) (s : ℕ) → IsRightDescent A w s → ¬ IsRightDescent A y s
        → IsBelow A y w ↔ IsBelow A y (w ++ s ∷ []) }
{}
