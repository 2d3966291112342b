//! The laws of W-graphs, for every admissible integer matrix A. Each function does nothing: its clauses are theorems.
ghost use Rattle.std.specs.Prelude.{◌≡◌, ◌⊎◌, ℕ, List, ℤ, pos};
ghost use Rattle.cox_base.specs.IntegerMatrix.{IntegerMatrix};
ghost use Rattle.cox_base.specs.Admissible.{IsAdmissible};
ghost use Rattle.cox_base.specs.Element.{SameElement};
ghost use Rattle.cox_hecke.specs.Row.{IsMu};
ghost use Rattle.cox_base.specs.Members.{IsElement};
ghost use Rattle.cox_base.specs.SortedList.{IsListOf};
ghost use Rattle.cox_wgraph.specs.Edges.{IsEdgeValue};
ghost use Rattle.cox_wgraph.specs.Listing.{Joined, Vertex, AreJoined, AreVertices};

/// Of mu(x,y) and mu(y,x) one is 0 at least. There is exactly one value for x and y, it is the same for y and x, and it depends on the
/// elements alone.
pub fn edges()
    ensures one_way { (A : IntegerMatrix) → IsAdmissible A → (x y : List ℕ) (up down : ℤ) → IsMu A x y up → IsMu A y x down
        → (up ≡ pos 0) ⊎ (down ≡ pos 0) }
    ensures exists { (A : IntegerMatrix) → IsAdmissible A → (x y : List ℕ) → (m : ℤ) × IsEdgeValue A x y m }
    ensures unique { (A : IntegerMatrix) → IsAdmissible A → (x y : List ℕ) (m n : ℤ) → IsEdgeValue A x y m → IsEdgeValue A x y n → m ≡ n }
    ensures symmetric { (A : IntegerMatrix) → IsAdmissible A → (x y : List ℕ) (m : ℤ) → IsEdgeValue A x y m → IsEdgeValue A y x m }
    ensures elements { (A : IntegerMatrix) → IsAdmissible A → (x y v w : List ℕ) (m : ℤ) → SameElement A x v → SameElement A y w
        → IsEdgeValue A x y m → IsEdgeValue A v w m }
{}

/// The W-graph of a finite group, given by the list of its elements, has exactly one listing.
pub fn listings()
    ensures exists { (A : IntegerMatrix) → IsAdmissible A → (elements : List (List ℕ)) → IsListOf (IsElement A) elements
        → (vertices : List Vertex) × AreVertices A vertices }
    ensures unique { (A : IntegerMatrix) → IsAdmissible A → (vertices others : List Vertex) → AreVertices A vertices
        → AreVertices A others → vertices ≡ others }
    ensures one_list { (A : IntegerMatrix) → IsAdmissible A → (x : List ℕ) (list other : List Joined) → AreJoined A x list
        → AreJoined A x other
        → list ≡ other }
{}
