//! A certificate, as far as its lines are read.
ghost use Rattle.std.specs.Prelude.{◌≡◌, ℕ, ◌<◌, ◌≤◌, List, [], ◌∷◌, ◌++◌, length, vec_len, IfOk, IsTrue};
ghost use Rattle.cox_tokens.specs.declared.limits.TheConstants.{LINE_LIMIT};
ghost use Rattle.cox_cert.specs.Drafts.{IsForm, Forms, Finishes};

use crate::matrix_reading::read_matrix;
use crate::reading::{EntryLine, is_end, read_count, read_entry, read_top};
use cox_base::{Coxeter, Word};
use cox_poly::Poly;
use std::alloc::{AllocError, Global};

/// The parts of a certificate.
#[derive(Drop)]
pub(crate) struct Draft {
    /// The group.
    pub(crate) group: Coxeter,
    /// The element, as it was written.
    pub(crate) top: Word,
    /// How many entries there are to be.
    pub(crate) count: u32,
    /// The words of the entries, in the order of the lines.
    pub(crate) words: Vec<Word>,
    /// Whether one of the polynomials is too large.
    pub(crate) large: bool,
    /// The polynomials of the entries in the same order, if none is too large.
    pub(crate) polynomials: Vec<Poly>,
}

/// A certificate up to one of its lines.
#[derive(Drop)]
pub(crate) enum Form {
    /// No line was read.
    Start,
    /// The last line was that of the matrix.
    Matrix(Coxeter),
    /// The last line was that of the element.
    Top(Coxeter, Word),
    /// The last line was that of the number of entries, or that of an entry.
    Entries(Draft),
    /// The last line was `end`.
    Ended(Draft),
}

/// The certificate with one more line; `None` where no certificate has these lines.
pub(crate) fn take(alloc: Global, form: Form, line: &[u8]) -> Result<Option<Form>, AllocError>
    requires { length line.now ≤ LINE_LIMIT }
    ensures { IfOk result (λ next. (lines : List (List ℕ)) → IsForm form lines → Forms next (lines ++ line.now ∷ [])) }
{
    match form {
        Form::Start => Ok(take_matrix(line)),
        Form::Matrix(group) => Ok(take_top(group, line)),
        Form::Top(group, top) => take_count(alloc, group, top, line),
        Form::Entries(draft) => take_behind(alloc, draft, line),
        Form::Ended(_) => Ok(None),
    }
}

/// The line of the matrix.
fn take_matrix(line: &[u8]) -> Option<Form>
    ensures { Forms result (line.now ∷ []) }
{
    match read_matrix(line) {
        Some(group) => Some(Form::Matrix(group)),
        None => None,
    }
}

/// The line of the element.
fn take_top(group: Coxeter, line: &[u8]) -> Option<Form>
    requires { length line.now ≤ LINE_LIMIT }
    ensures { (lines : List (List ℕ)) → IsForm (Form.Matrix group) lines → Forms result (lines ++ line.now ∷ []) }
{
    match read_top(line, group.rank()) {
        Some(top) => Some(Form::Top(group, top)),
        None => None,
    }
}

/// The line of the number of entries.
fn take_count(
    alloc: Global,
    group: Coxeter,
    top: Word,
    line: &[u8],
) -> Result<Option<Form>, AllocError>
    ensures { IfOk result (λ next. (lines : List (List ℕ)) → IsForm (Form.Top group top) lines → Forms next (lines ++ line.now ∷ [])) }
{
    let Some(count) = read_count(line) else {
        return Ok(None);
    };
    let draft = Draft {
        group,
        top,
        count,
        words: Vec::with_capacity(alloc, count as usize)?,
        large: false,
        polynomials: Vec::with_capacity(alloc, count as usize)?,
    };
    Ok(Some(Form::Entries(draft)))
}

/// A line behind that of the number of entries: an entry, or `end`.
fn take_behind(alloc: Global, draft: Draft, line: &[u8]) -> Result<Option<Form>, AllocError>
    requires { length line.now ≤ LINE_LIMIT }
    ensures { IfOk result (λ next. (lines : List (List ℕ)) → IsForm (Form.Entries draft) lines → Forms next (lines ++ line.now ∷ [])) }
{
    if draft.words.len() < draft.count as usize {
        return take_entry(alloc, draft, line);
    }
    Ok(take_end(draft, line))
}

/// The line of an entry.
fn take_entry(alloc: Global, draft: Draft, line: &[u8]) -> Result<Option<Form>, AllocError>
    requires size { length line.now ≤ LINE_LIMIT }
    requires room { vec_len draft.words < draft.count }
    ensures { IfOk result (λ next. (lines : List (List ℕ)) → IsForm (Form.Entries draft) lines → Forms next (lines ++ line.now ∷ [])) }
{
    match read_entry(alloc, line, draft.group.rank())? {
        EntryLine::Small(word, p) => Ok(Some(Form::Entries(with_small(draft, word, p)?))),
        EntryLine::Large(word) => Ok(Some(Form::Entries(with_large(draft, word)?))),
        EntryLine::Foreign => Ok(None),
    }
}

/// The draft with one entry more.
fn with_small(mut draft: Draft, word: Word, p: Poly) -> Result<Draft, AllocError>
    ensures group { IfOk result (λ next. next.group ≡ draft.group) }
    ensures top { IfOk result (λ next. next.top ≡ draft.top) }
    ensures count { IfOk result (λ next. next.count ≡ draft.count) }
    ensures words { IfOk result (λ next. next.words.items ≡ draft.words.items ++ word ∷ []) }
    ensures large { IfOk result (λ next. next.large ≡ draft.large) }
    ensures polynomials { IfOk result (λ next. next.polynomials.items ≡ draft.polynomials.items ++ p ∷ []) }
{
    draft.words.push(word)?;
    draft.polynomials.push(p)?;
    Ok(draft)
}

/// The draft with one entry more, whose polynomial is too large.
fn with_large(mut draft: Draft, word: Word) -> Result<Draft, AllocError>
    ensures group { IfOk result (λ next. next.group ≡ draft.group) }
    ensures top { IfOk result (λ next. next.top ≡ draft.top) }
    ensures count { IfOk result (λ next. next.count ≡ draft.count) }
    ensures words { IfOk result (λ next. next.words.items ≡ draft.words.items ++ word ∷ []) }
    ensures large { IfOk result (λ next. IsTrue next.large) }
{
    draft.words.push(word)?;
    draft.large = true;
    Ok(draft)
}

/// The line `end`.
fn take_end(draft: Draft, line: &[u8]) -> Option<Form>
    requires full { draft.count ≤ vec_len draft.words }
    ensures { (lines : List (List ℕ)) → IsForm (Form.Entries draft) lines → Forms result (lines ++ line.now ∷ []) }
{
    if is_end(line) {
        Some(Form::Ended(draft))
    } else {
        None
    }
}

/// The parts of the certificate whose lines were read; `None` where no certificate has these and no more.
pub(crate) fn finished(form: Form) -> Option<Draft>
    ensures { (lines : List (List ℕ)) → IsForm form lines → Finishes result lines }
{
    match form {
        Form::Ended(draft) => Some(draft),
        Form::Start => None,
        Form::Matrix(_) => None,
        Form::Top(_, _) => None,
        Form::Entries(_) => None,
    }
}
