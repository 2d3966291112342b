//! All the small roots, breadth first from the simple ones.
ghost use Rattle.std.specs.Prelude.{◌≡◌, ℕ, ◌+◌, ◌<◌, ◌≤◌, length, IfOk, IfErr, OnOk, OnErr};
ghost use Rattle.cox_base.specs.Matrix.{IsLetter};
ghost use Rattle.cox_base.specs.IntegerMatrix.{integer_matrix};
ghost use Rattle.cox_small.specs.SmallRoots.{HasMoreSmallRoots};
ghost use Rattle.cox_minroots.specs.Closure.{AreSmall, HasSimple, HasStep, IsLonger, AreAllSmall, WhenTooMany};

use crate::RootFault;
use crate::root::Root;
use crate::roots::Roots;
use cox_base::Coxeter;
use std::alloc::{AllocError, Global};

/// The greatest limit for the number of small roots.
pub const MAX_SMALL_ROOTS: u32 = 4096;

/// A step is short if p is negative and p r is at most this.
pub(crate) const LONGEST: u64 = 3;

/// All the small roots, the simple ones first.
pub(crate) fn close(alloc: Global, g: &Coxeter, max: u32) -> Result<Roots, RootFault>
    requires { max ≤ MAX_SMALL_ROOTS }
    ensures closed { IfOk result (λ roots. AreAllSmall (integer_matrix g.now) roots) }
    ensures few { IfOk result (λ roots. length roots ≤ max) }
    ensures fault { IfErr result (WhenTooMany (λ seen. (seen ≡ max + 1) × HasMoreSmallRoots (integer_matrix g.now) max)) }
{
    let Ok(mut roots) = simple_roots(alloc, g) else {
        return Err(RootFault::NoMemory);
    };
    let mut i = 0;
    while i < roots.len() {
        add_steps_within(g, &mut roots, i, max)?;
        i += 1;
    }
    Ok(roots)
}

/// Adds what short steps make of the root `i`, unless there are too many roots already.
fn add_steps_within(g: &Coxeter, roots: &mut Roots, i: usize, max: u32) -> Result<(), RootFault>
    requires limit { max ≤ MAX_SMALL_ROOTS }
    requires small { AreSmall (integer_matrix g.now) roots.old }
    requires within { i < length roots.old }
    ensures few { OnOk result (length roots.old ≤ max) }
    ensures small { OnOk result (AreSmall (integer_matrix g.now) roots.new) }
    ensures longer { OnOk result (IsLonger roots.old roots.new) }
    ensures steps { OnOk result ((s : ℕ) → IsLetter g.now.rank s → HasStep (integer_matrix g.now) roots.new i s) }
    ensures fault { IfErr result (WhenTooMany (λ seen. (seen ≡ max + 1) × HasMoreSmallRoots (integer_matrix g.now) max)) }
{
    if roots.len() > max as usize {
        return Err(RootFault::TooMany { seen: max + 1 });
    }
    match add_steps(g, roots, i) {
        Ok(()) => Ok(()),
        Err(_) => Err(RootFault::NoMemory),
    }
}

/// The simple roots.
fn simple_roots(alloc: Global, g: &Coxeter) -> Result<Roots, AllocError>
    ensures small { IfOk result (AreSmall (integer_matrix g.now)) }
    ensures simple { IfOk result (λ roots. HasSimple roots g.now.rank) }
{
    let mut roots = Roots::new(alloc);
    for s in 1..g.rank() as u8 + 1 {
        roots.insert(Root::simple(s))?;
    }
    Ok(roots)
}

/// Adds what short steps make of the root `i`. Memory can run out only where there are more small roots than before.
fn add_steps(g: &Coxeter, roots: &mut Roots, i: usize) -> Result<(), AllocError>
    requires small { AreSmall (integer_matrix g.now) roots.old }
    requires within { i < length roots.old }
    requires few { length roots.old ≤ MAX_SMALL_ROOTS }
    ensures small { OnOk result (AreSmall (integer_matrix g.now) roots.new) }
    ensures longer { OnOk result (IsLonger roots.old roots.new) }
    ensures steps { OnOk result ((s : ℕ) → IsLetter g.now.rank s → HasStep (integer_matrix g.now) roots.new i s) }
    ensures fault { OnErr result (HasMoreSmallRoots (integer_matrix g.now) (length roots.old)) }
{
    for s in 1..g.rank() as u8 + 1 {
        let root = roots.at(i);
        let product = root.product(g, s);
        if 1 <= product && product <= LONGEST {
            roots.insert(root.turned(g, s))?;
        }
    }
    Ok(())
}
