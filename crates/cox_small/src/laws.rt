//! The laws of small roots. Each function does nothing: its clauses are theorems.

ghost use Rattle.std.specs.Prelude.{◌≡◌, ◌≢◌, ◌⊎◌, ℕ, ◌↔◌, List, [], ◌∷◌, ◌++◌, pos, ◌*ℤ◌, ◌≤ℤ◌, ◌<ℤ◌};
ghost use Rattle.cox_base.specs.Matrix.{IsLetter};
ghost use Rattle.cox_base.specs.IntegerMatrix.{IntegerMatrix};
ghost use Rattle.cox_base.specs.Admissible.{IsAdmissible};
ghost use Rattle.cox_base.specs.Element.{SameElement};
ghost use Rattle.cox_base.specs.Reduced.{IsReduced};
ghost use Rattle.cox_reflect.specs.Action.{Vector, simple_root, pairing, reflect};
ghost use Rattle.cox_reflect.specs.WordAction.{act, IsNonnegative, IsNonpositive};
ghost use Rattle.cox_reflect.specs.Transpose.{transposed};
ghost use Rattle.cox_small.specs.SmallRoots.{IsSmall, IsSmallRoot, HasMoreSmallRoots};
ghost use Rattle.cox_small.specs.RootCounts.{HasFewSmallRoots};
ghost use Rattle.cox_small.specs.Elementary.{IsElementary};

/// Small roots are positive, with one coroot each, and they are the elementary roots: the positive roots that dominate no other positive
/// root. A letter with a positive pairing keeps them small.
pub fn small_roots()
    ensures positive { (A : IntegerMatrix) → IsAdmissible A → (b c : Vector) → IsSmall A b c → IsNonnegative b }
    ensures coroot { (A : IntegerMatrix) → IsAdmissible A → (b c d : Vector) → IsSmall A b c → IsSmall A b d → c ≡ d }
    ensures elementary { (A : IntegerMatrix) → IsAdmissible A → (b : Vector) → IsSmallRoot A b ↔ IsElementary A b }
    ensures closed { (A : IntegerMatrix) → IsAdmissible A → (s : ℕ) (b c : Vector) → IsSmall A b c → b ≢ simple_root s
        → pos 0 <ℤ pairing A s b → IsSmall A (reflect A s b) (reflect (transposed A) s c) }
{}

/// A step of a small root b out of the small roots, with p negative and p r at least 4: each element that makes s b negative makes e(s)
/// negative.
pub fn steps_out()
    ensures { (A : IntegerMatrix) → IsAdmissible A → (s : ℕ) (b c : Vector) → IsSmall A b c → pairing A s b <ℤ pos 0
        → pos 4 ≤ℤ (pairing A s b *ℤ pairing (transposed A) s c)
        → (w : List ℕ) → IsNonpositive (act A w (reflect A s b)) → IsNonpositive (act A w (simple_root s)) }
{}

/// What a letter s does behind a reduced word is read off the roots that e(s) goes through, from the last letter of the word to the first.
pub fn reading()
    // at the simple root of a letter q, s is exchanged for that letter
    ensures exchanged { (A : IntegerMatrix) → IsAdmissible A → (before behind : List ℕ) (q s : ℕ) → IsLetter A.rank q → IsLetter A.rank s
        → act A behind (simple_root s) ≡ simple_root q → SameElement A ((before ++ q ∷ behind) ++ s ∷ []) (before ++ behind) }

    // at a step out of the small roots the longer word is reduced
    ensures out { (A : IntegerMatrix) → IsAdmissible A → (before behind : List ℕ) (q s : ℕ) (c : Vector) → IsLetter A.rank s
        → IsReduced A (before ++ q ∷ behind) → IsSmall A (act A behind (simple_root s)) c
        → pairing A q (act A behind (simple_root s)) <ℤ pos 0
        → pos 4 ≤ℤ (pairing A q (act A behind (simple_root s)) *ℤ pairing (transposed A) q c)
        → IsReduced A ((before ++ q ∷ behind) ++ s ∷ []) }

    // and so it is where the word ends at a small root
    ensures at_the_end { (A : IntegerMatrix) → IsAdmissible A → (w : List ℕ) (s : ℕ) (c : Vector) → IsLetter A.rank s
        → IsReduced A w → IsSmall A (act A w (simple_root s)) c → IsReduced A (w ++ s ∷ []) }
{}

/// There are at most `max` small roots, or more than that, and not both.
pub fn counts()
    ensures one_of_both { (A : IntegerMatrix) → IsAdmissible A → (max : ℕ) → HasMoreSmallRoots A max ⊎ HasFewSmallRoots A max }
    ensures not_both { (A : IntegerMatrix) → (max : ℕ) → HasFewSmallRoots A max → ¬ HasMoreSmallRoots A max }
{}
