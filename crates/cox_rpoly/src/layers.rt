//! The values R(x,v) along a reduced word, v being what is left of it.
//!
//! A layer has the elements x that are met when so many letters are left, each of them below v. With v = s u, where s shortens x the value
//! is R(sx,u), and else it is (q-1) R(x,u) + q R(sx,u), where R(sx,u) is 0 unless sx <= u. So a layer leads to the next by links, which
//! stay while the elements go, and the values come back by them from the end of the word, where the identity alone is left.
//! There is no value where a number of an element overflows.
ghost use Rattle.std.specs.Prelude.{◌≡◌, ℕ, List, ◌+◌, ◌≤◌, [], ◌∷◌, length, vec_capacity, IfOk, IfErr, OnOk, OnErr, IsTrue, All, Contains};
ghost use Rattle.cox_base.specs.Matrix.{IsLetter, IsWord};
ghost use Rattle.cox_base.specs.Admissible.{IsAdmissible};
ghost use Rattle.cox_base.specs.IntegerMatrix.{integer_matrix};
ghost use Rattle.cox_base.specs.Descents.{IsLeftDescent};
ghost use Rattle.cox_base.specs.Reduced.{IsReduced};
ghost use Rattle.cox_rpoly.specs.Layer.{IsInLayer, AreLayerValues, AreLinks, IsLink, IsAt, HasGained, Extends, IsLackedBy};
ghost use Rattle.cox_rpoly.specs.declared.no_value.NoValue.TheVariants.{NoMemory};

use crate::NoMemory;
use crate::elements::Element;
use crate::no_value::NoValue;
use crate::terms::{Link, Terms, ones, terms_of_links};
use cox_reflect::Words;
use indexmap::IndexSet;
use std::alloc::Global;

/// The layer of one element.
pub(crate) fn layer_of<E: Element>(alloc: Global, x: E) -> Result<IndexSet<E>, NoMemory>
    ensures { IfOk result (λ layer. layer.keys ≡ x ∷ []) }
{
    let mut layer = IndexSet::new(alloc);
    layer.insert(x)?;
    Ok(layer)
}

/// The values R(x,v) for each element x of a layer, v being a reduced word.
pub(crate) fn values<W: Words, E: Element>(
    alloc: Global,
    words: &W,
    form: &[u8],
    layer: IndexSet<E>,
) -> Result<Vec<Terms>, NoValue>
    requires admissible { IsAdmissible (integer_matrix (W.matrix words.now)) }
    requires letters { IsWord (W.matrix words.now).rank form.now }
    requires reduced { IsReduced (integer_matrix (W.matrix words.now)) form.now }
    requires short { length form.now ≤ W.longest words.now }
    requires members { All (IsInLayer E.is_of (integer_matrix (W.matrix words.now)) form.now) layer.keys }
    ensures values { IfOk result (λ values. AreLayerValues E.is_of (integer_matrix (W.matrix words.now)) form.now layer.keys
        values.items) }
    ensures sure { IsTrue E.is_sure → IfErr result (λ e. e ≡ NoMemory) }
{
    let Some((&s, rest)) = form.split_first() else {
        return ones(alloc, layer.len());
    };
    let (next, links) = next_layer(alloc, words, s, rest, layer)?;
    let values = values(alloc, words, rest, next)?;
    terms_of_links(alloc, links.as_slice(), values.as_slice())
}

/// The elements for one letter less, and the links of a layer to them.
fn next_layer<W: Words, E: Element>(
    alloc: Global,
    words: &W,
    s: u8,
    rest: &[u8],
    layer: IndexSet<E>,
) -> Result<(IndexSet<E>, Vec<Link>), NoValue>
    requires admissible { IsAdmissible (integer_matrix (W.matrix words.now)) }
    requires letter { IsLetter (W.matrix words.now).rank s }
    requires letters { IsWord (W.matrix words.now).rank rest.now }
    requires reduced { IsReduced (integer_matrix (W.matrix words.now)) (s ∷ rest.now) }
    requires short { length rest.now + 1 ≤ W.longest words.now }
    requires members { All (IsInLayer E.is_of (integer_matrix (W.matrix words.now)) (s ∷ rest.now)) layer.keys }
    ensures members { IfOk result (λ r. All (IsInLayer E.is_of (integer_matrix (W.matrix words.now)) rest.now) r.0.keys) }
    ensures links { IfOk result (λ r. AreLinks E.is_of (integer_matrix (W.matrix words.now)) s rest.now layer.keys r.0.keys r.1.items) }
    ensures sure { IsTrue E.is_sure → IfErr result (λ e. e ≡ NoMemory) }
{
    let mut links = Vec::with_capacity(alloc, layer.len())?;
    let mut next = IndexSet::new(alloc);
    put_links(words, s, rest, layer.as_slice(), &mut next, &mut links)?;
    Ok((next, links))
}

/// Puts the links of a layer to the next into a list that has room for them. Memory runs out only where the next layer has not yet all that
/// they need.
fn put_links<W: Words, E: Element>(
    words: &W,
    s: u8,
    rest: &[u8],
    layer: &[E],
    next: &mut IndexSet<E>,
    links: &mut Vec<Link>,
) -> Result<(), NoValue>
    requires admissible { IsAdmissible (integer_matrix (W.matrix words.now)) }
    requires letter { IsLetter (W.matrix words.now).rank s }
    requires letters { IsWord (W.matrix words.now).rank rest.now }
    requires reduced { IsReduced (integer_matrix (W.matrix words.now)) (s ∷ rest.now) }
    requires short { length rest.now + 1 ≤ W.longest words.now }
    requires members { All (IsInLayer E.is_of (integer_matrix (W.matrix words.now)) (s ∷ rest.now)) layer.now }
    requires members_next { All (IsInLayer E.is_of (integer_matrix (W.matrix words.now)) rest.now) next.old.keys }
    requires none { links.old.items ≡ [] }
    requires room { length layer.now ≤ vec_capacity links.old }
    ensures members { OnOk result (All (IsInLayer E.is_of (integer_matrix (W.matrix words.now)) rest.now) next.new.keys) }
    ensures links { OnOk result (AreLinks E.is_of (integer_matrix (W.matrix words.now)) s rest.now layer.now next.new.keys
        links.new.items) }
    ensures sure { IsTrue E.is_sure → IfErr result (λ e. e ≡ NoMemory) }
    ensures fault { IfErr result (λ e. e ≡ NoMemory → IsLackedBy E.is_of (integer_matrix (W.matrix words.now)) rest.now next.old.keys) }
{
    for x in layer {
        links.push_reserved(link(words, s, rest, x, next)?);
    }
    Ok(())
}

/// The link of an element to the next layer, which takes up what the value at x needs. Memory runs out only where it has not all of that.
fn link<W: Words, E: Element>(
    words: &W,
    s: u8,
    rest: &[u8],
    x: &E,
    next: &mut IndexSet<E>,
) -> Result<Link, NoValue>
    requires admissible { IsAdmissible (integer_matrix (W.matrix words.now)) }
    requires letter { IsLetter (W.matrix words.now).rank s }
    requires letters { IsWord (W.matrix words.now).rank rest.now }
    requires reduced { IsReduced (integer_matrix (W.matrix words.now)) (s ∷ rest.now) }
    requires short { length rest.now + 1 ≤ W.longest words.now }
    requires member { IsInLayer E.is_of (integer_matrix (W.matrix words.now)) (s ∷ rest.now) x.now }
    requires members { All (IsInLayer E.is_of (integer_matrix (W.matrix words.now)) rest.now) next.old.keys }
    ensures members { OnOk result (All (IsInLayer E.is_of (integer_matrix (W.matrix words.now)) rest.now) next.new.keys) }
    ensures extends { OnOk result (Extends next.old.keys next.new.keys) }
    ensures link { IfOk result (IsLink E.is_of (integer_matrix (W.matrix words.now)) s rest.now x.now next.new.keys) }
    ensures sure { IsTrue E.is_sure → IfErr result (λ e. e ≡ NoMemory) }
    ensures fault { IfErr result (λ e. e ≡ NoMemory → IsLackedBy E.is_of (integer_matrix (W.matrix words.now)) rest.now next.old.keys) }
{
    let Some(moved) = x.times(words, s, rest) else {
        return Err(NoValue::Overflow);
    };
    if x.is_shortened(words, s) {
        return Ok(Link::Shorter(number(next, moved)?));
    }
    longer_link(words, s, rest, x, moved, next)
}

/// The same for an element that s doesn't shorten, with s x.
fn longer_link<W: Words, E: Element>(
    words: &W,
    s: u8,
    rest: &[u8],
    x: &E,
    moved: E,
    next: &mut IndexSet<E>,
) -> Result<Link, NoValue>
    requires admissible { IsAdmissible (integer_matrix (W.matrix words.now)) }
    requires letters { IsWord (W.matrix words.now).rank rest.now }
    requires reduced { IsReduced (integer_matrix (W.matrix words.now)) (s ∷ rest.now) }
    requires short { length rest.now + 1 ≤ W.longest words.now }
    requires member { IsInLayer E.is_of (integer_matrix (W.matrix words.now)) (s ∷ rest.now) x.now }
    requires members { All (IsInLayer E.is_of (integer_matrix (W.matrix words.now)) rest.now) next.old.keys }
    requires ascent { (u : List ℕ) → E.is_of (integer_matrix (W.matrix words.now)) u x.now
        → ¬ IsLeftDescent (integer_matrix (W.matrix words.now)) u s }
    requires times { (u : List ℕ) → E.is_of (integer_matrix (W.matrix words.now)) u x.now
        → E.is_of (integer_matrix (W.matrix words.now)) (s ∷ u) moved }
    ensures members { OnOk result (All (IsInLayer E.is_of (integer_matrix (W.matrix words.now)) rest.now) next.new.keys) }
    ensures extends { OnOk result (Extends next.old.keys next.new.keys) }
    ensures link { IfOk result (IsLink E.is_of (integer_matrix (W.matrix words.now)) s rest.now x.now next.new.keys) }
    ensures sure { IsTrue E.is_sure → IfErr result (λ e. e ≡ NoMemory) }
    ensures fault { IfErr result (λ e. e ≡ NoMemory → IsLackedBy E.is_of (integer_matrix (W.matrix words.now)) rest.now next.old.keys) }
{
    let still = number(next, x.copied())?;
    match moved.is_below(words, rest) {
        None => Err(NoValue::Overflow),
        Some(false) => Ok(Link::Longer(still, None)),
        Some(true) => Ok(Link::Longer(still, Some(number(next, moved)?))),
    }
}

/// The number of an element in a layer, which takes it up if it is not there. Only then can memory run out, and the layer stays.
fn number<E: Element>(layer: &mut IndexSet<E>, x: E) -> Result<usize, NoMemory>
    ensures at { IfOk result (λ i. IsAt layer.new.keys i x) }
    ensures grown { OnOk result (HasGained layer.old.keys x layer.new.keys) }
    ensures fault { OnErr result (¬ Contains layer.old.keys x) }
    ensures kept { OnErr result (layer.new.keys ≡ layer.old.keys) }
{
    let (number, _) = layer.insert_full(x)?;
    Ok(number)
}
