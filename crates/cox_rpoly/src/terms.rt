//! Polynomials of a degree of at most [`MAX_DIFFERENCE`], by their coefficients from the constant one up, and the values of a layer by
//! links.
ghost use Rattle.std.specs.Prelude.{◌≡◌, ℕ, ◌+◌, ◌^◌, ◌<◌, All, IfOk, IfErr};
ghost use Rattle.cox_poly.specs.Coefficients.{zero_polynomial, one_polynomial, plus, times_q, times_q_less_one};
ghost use Rattle.cox_poly.specs.Polynomial.{coefficient};
ghost use Rattle.cox_rpoly.specs.declared.no_value.NoValue.TheVariants.{NoMemory};
ghost use Rattle.cox_rpoly.specs.Terms.{LeavesRoom, IsLinkWithin, linked_value, AreLinkedValues, AreOnes};

use crate::MAX_DIFFERENCE;
use crate::no_value::NoValue;
use std::alloc::Global;

/// How many coefficients there are.
pub const TERMS: usize = MAX_DIFFERENCE + 1;

/// The coefficients of q^0, q^1, ..
pub(crate) type Terms = [i64; TERMS];

/// Where the value R(x,su) comes from, among the values R(y,u).
#[derive(Clone, Copy)]
pub(crate) enum Link {
    /// s shortens x: it is the value with this number, which is that of s x.
    Shorter(usize),
    /// It doesn't: the numbers of the values of x and, where it isn't 0, of s x.
    Longer(usize, Option<usize>),
}

/// The polynomial 0.
fn zero() -> Terms
    ensures { (k : ℕ) → coefficient result k ≡ zero_polynomial k }
{
    [0; TERMS]
}

/// The polynomial 1.
fn one() -> Terms
    ensures { (k : ℕ) → coefficient result k ≡ one_polynomial k }
{
    let mut terms = [0; TERMS];
    terms[0] = 1;
    terms
}

/// So many polynomials 1.
pub(crate) fn ones(alloc: Global, n: usize) -> Result<Vec<Terms>, NoValue>
    ensures ones { IfOk result (λ values. AreOnes n values.items) }
    ensures fault { IfErr result (λ e. e ≡ NoMemory) }
{
    let mut values = Vec::new(alloc);
    values.resize(n, one())?;
    Ok(values)
}

/// The values of a layer, by their links to the values of the next.
pub(crate) fn terms_of_links(
    alloc: Global,
    links: &[Link],
    next: &[Terms],
) -> Result<Vec<Terms>, NoValue>
    requires { All (IsLinkWithin next.now) links.now }
    ensures values { IfOk result (λ values. AreLinkedValues links.now next.now values.items) }
    ensures fault { IfErr result (λ e. e ≡ NoMemory) }
{
    let mut values = Vec::with_capacity(alloc, links.len())?;
    for link in links {
        let Ok(()) = values.push(linked(*link, next)) else {
            return Err(NoValue::NoMemory);
        };
    }
    Ok(values)
}

/// The value that a link leads to.
fn linked(link: Link, next: &[Terms]) -> Terms
    requires { IsLinkWithin next.now link }
    ensures { (k : ℕ) → coefficient result k ≡ linked_value next.now link k }
{
    match link {
        Link::Shorter(moved) => next[moved],
        Link::Longer(still, None) => combined(&next[still], &zero()),
        Link::Longer(still, Some(moved)) => combined(&next[still], &next[moved]),
    }
}

/// (q - 1) f + q h, of a degree of at most [`MAX_DIFFERENCE`] too.
fn combined(f: &Terms, h: &Terms) -> Terms
    requires small_f { LeavesRoom f.now }
    requires small_h { LeavesRoom h.now }
    ensures { (k : ℕ) → coefficient result k ≡ plus (times_q_less_one (coefficient f.now)) (times_q (coefficient h.now)) k }
{
    let mut terms = [0; TERMS];
    terms[0] = -f[0];
    for k in 1..TERMS {
        terms[k] = f[k - 1] - f[k] + h[k - 1];
    }
    terms
}
