//! Positive roots with their coroots, by coordinates, and what a letter does to them.
ghost use Rattle.std.specs.Prelude.{◌≡◌, ℕ, ◌-◌, ◌*◌, ◌≤◌, slice_index, slice_set, nat_abs};
ghost use Rattle.cox_base.specs.Matrix.{IsLetter};
ghost use Rattle.cox_base.specs.IntegerMatrix.{integer_matrix};
ghost use Rattle.cox_reflect.specs.Action.{simple_root};
ghost use Rattle.cox_reflect.specs.Transpose.{transposed};
ghost use Rattle.cox_minroots.specs.Coordinates.{vector_of, matrix_of_kind, weight, rise, CanTurn};

use cox_base::{Coxeter, MAX_RANK};

/// Whether coordinates are those of a root or of a coroot.
#[derive(Clone, Copy)]
pub(crate) enum Kind {
    OfRoot,
    OfCoroot,
}

/// The coordinates of a positive root and of its coroot, that of e(s) at s - 1; 0 past the rank.
#[derive(Clone, Copy, Drop, Eq, Hash, PartialEq)]
pub(crate) struct Root {
    pub(crate) root: [u16; MAX_RANK],
    pub(crate) coroot: [u16; MAX_RANK],
}

impl Root {
    /// e(s), whose coroot is e(s) too.
    pub(crate) fn simple(s: u8) -> Root
        requires { IsLetter MAX_RANK s }
        ensures root { vector_of result.root ≡ simple_root s }
        ensures coroot { vector_of result.coroot ≡ simple_root s }
        ensures small { (k : ℕ) → slice_index result.root k ≤ 1 }
        ensures small_coroot { (k : ℕ) → slice_index result.coroot k ≤ 1 }
    {
        let mut simple = [0; MAX_RANK];
        simple[s as usize - 1] = 1;
        Root {
            root: simple,
            coroot: simple,
        }
    }

    /// The image under s.
    pub(crate) fn turned(&self, g: &Coxeter, s: u8) -> Root
        requires letter { IsLetter g.now.rank s }
        requires root { CanTurn (integer_matrix g.now) s self.now.root }
        requires coroot { CanTurn (transposed (integer_matrix g.now)) s self.now.coroot }
        ensures root { result.root ≡ slice_set self.now.root (s - 1)
            (weight (integer_matrix g.now) s self.now.root - 3 * slice_index self.now.root (s - 1)) }
        ensures coroot { result.coroot ≡ slice_set self.now.coroot (s - 1)
            (weight (transposed (integer_matrix g.now)) s self.now.coroot - 3 * slice_index self.now.coroot (s - 1)) }
    {
        Root {
            root: turned(g, Kind::OfRoot, &self.root, s),
            coroot: turned(g, Kind::OfCoroot, &self.coroot, s),
        }
    }

    /// p r where p is negative, else 0.
    pub(crate) fn product(&self, g: &Coxeter, s: u8) -> u64
        requires { IsLetter g.now.rank s }
        ensures { result ≡ rise (integer_matrix g.now) s self.now.root * rise (transposed (integer_matrix g.now)) s self.now.coroot }
    {
        u64::from(rise(g, Kind::OfRoot, &self.root, s))
            * u64::from(rise(g, Kind::OfCoroot, &self.coroot, s))
    }
}

/// |a(s,t)|, or |a(t,s)| for coroots.
fn size(g: &Coxeter, kind: Kind, s: u8, t: u8) -> u32
    requires s { IsLetter g.now.rank s }
    requires t { IsLetter g.now.rank t }
    ensures value { result ≡ nat_abs ((matrix_of_kind kind (integer_matrix g.now)).entry s t) }
    ensures small { result ≤ 3 }
{
    let entry = match kind {
        Kind::OfRoot => g.entry(s, t),
        Kind::OfCoroot => g.entry(t, s),
    };
    entry.unsigned_abs() as u32
}

/// The weight of the coordinates at s.
fn weight(g: &Coxeter, kind: Kind, x: &[u16; MAX_RANK], s: u8) -> u32
    requires { IsLetter g.now.rank s }
    ensures value { result ≡ weight (matrix_of_kind kind (integer_matrix g.now)) s x.now }
    ensures small { result ≤ MAX_RANK * 196605 }
    ensures limit { g.now.rank ≤ MAX_RANK }
{
    let mut sum = 0;
    for t in 1..g.rank() as u8 + 1 {
        sum += size(g, kind, s, t) * u32::from(x[t as usize - 1]);
    }
    sum
}

/// -p where p is negative, else 0.
fn rise(g: &Coxeter, kind: Kind, x: &[u16; MAX_RANK], s: u8) -> u32
    requires { IsLetter g.now.rank s }
    ensures value { result ≡ rise (matrix_of_kind kind (integer_matrix g.now)) s x.now }
    ensures small { result ≤ MAX_RANK * 196605 }
{
    weight(g, kind, x, s).saturating_sub(4 * u32::from(x[s as usize - 1]))
}

/// The coordinates of the image under s.
fn turned(g: &Coxeter, kind: Kind, x: &[u16; MAX_RANK], s: u8) -> [u16; MAX_RANK]
    requires letter { IsLetter g.now.rank s }
    requires turns { CanTurn (matrix_of_kind kind (integer_matrix g.now)) s x.now }
    ensures { result ≡ slice_set x.now (s - 1)
        (weight (matrix_of_kind kind (integer_matrix g.now)) s x.now - 3 * slice_index x.now (s - 1)) }
{
    let mut image = *x;
    let own = s as usize - 1;
    image[own] = (weight(g, kind, x, s) - 3 * u32::from(x[own])) as u16;
    image
}
