//! Whether a check takes a polynomial.
ghost use Rattle.std.specs.Prelude.{◌↔◌, IsTrue};
ghost use Rattle.cox_poly.specs.Limit.{IsWithin};
ghost use Rattle.cox_certtext.specs.declared.limits.TheConstants.{MAX_CHECKED_COEFFICIENT};
ghost use Rattle.cox_rowcheck.specs.CheckablePolynomials.{IsCheckable};

use cox_certtext::{MAX_CHECKED_COEFFICIENT, MAX_DEGREE};
use cox_poly::Poly;

/// Whether a check takes a coefficient.
fn is_within(value: i64) -> bool
    ensures { IsTrue result ↔ IsWithin MAX_CHECKED_COEFFICIENT value }
{
    -MAX_CHECKED_COEFFICIENT <= value && value <= MAX_CHECKED_COEFFICIENT
}

/// Whether a check takes a polynomial: no degree is above [`MAX_DEGREE`], and no coefficient above [`MAX_CHECKED_COEFFICIENT`] in absolute
/// value.
pub fn is_checkable(p: &Poly) -> bool
    ensures { IsTrue result ↔ IsCheckable p.now }
{
    let Some(degree) = p.degree() else {
        return true;
    };
    if degree > MAX_DEGREE {
        return false;
    }
    for k in 0..degree + 1 {
        if !is_within(p.coefficient(k)) {
            return false;
        }
    }
    true
}
