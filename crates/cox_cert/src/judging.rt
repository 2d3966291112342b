//! Whether a certificate states the row of its element.
ghost use Rattle.std.specs.Prelude.{◌≡◌, ◌↔◌, false, IsTrue, IfOk, IfSome, MatchOption, OnErr};
ghost use Rattle.cox_certtext.specs.Certificate.{Certificate, IsCertificate};
ghost use Rattle.cox_cert.specs.Causes.{HasTop};
ghost use Rattle.cox_cert.specs.Drafts.{IsDraftOf, letters_of};
ghost use Rattle.cox_cert.specs.Judgements.{StatesTop, StatesInterval, StatesBounded, StatesRow, IsFirst, IsJudged, HasCertificate};

use crate::draft::Draft;
use crate::status::{Cause, CheckStatus};
use cox_base::Word;
use cox_certtext::MAX_LISTED;
use cox_context::{Context, ContextFault};
use cox_reflect::normal_form;
use cox_rowcheck::is_row;
use cox_rpoly::MAX_DIFFERENCE;
use std::alloc::{AllocError, Global};

/// How the check of these parts of a certificate ends.
pub(crate) fn judge(alloc: Global, draft: &Draft) -> CheckStatus
    requires { HasCertificate draft.now }
    ensures { (c : Certificate) → IsCertificate c → IsDraftOf draft.now c → IsJudged result c }
{
    match first_cause(alloc, draft) {
        Ok(None) => CheckStatus::Yes,
        Ok(Some(cause)) => CheckStatus::No(cause),
        Err(_) => CheckStatus::NoMemory,
    }
}

/// The first cause that applies to the parts of a certificate, if one does. That the element is not given by its normal form, or is too
/// long, is told without memory.
fn first_cause(alloc: Global, draft: &Draft) -> Result<Option<Cause>, AllocError>
    requires { HasCertificate draft.now }
    ensures first { IfOk result (λ cause. (c : Certificate) → IsCertificate c → IsDraftOf draft.now c → IsFirst cause c) }
    ensures memory { OnErr result ((c : Certificate) → IsCertificate c → IsDraftOf draft.now c → HasTop c) }
{
    if !has_top(draft) {
        return Ok(Some(Cause::Top));
    }
    match interval_of(alloc, draft)? {
        Some(context) => cause_within(alloc, draft, &context),
        None => Ok(Some(Cause::Interval)),
    }
}

/// The first cause that applies where the element and the words are right. That a polynomial is too large, that the one at the element is
/// not 1, or that a degree is too high for a row, is told without memory.
fn cause_within(
    alloc: Global,
    draft: &Draft,
    context: &Context,
) -> Result<Option<Cause>, AllocError>
    requires certificate { HasCertificate draft.now }
    requires top { StatesTop draft.now }
    requires interval { StatesInterval draft.now }
    requires matrix { context.now.matrix ≡ draft.now.group }
    requires members { context.now.members ≡ letters_of draft.now.words.items }
    ensures first { IfOk result (λ cause. (c : Certificate) → IsCertificate c → IsDraftOf draft.now c → IsFirst cause c) }
    ensures small { OnErr result (draft.now.large ≡ false) }
    ensures bounded { OnErr result (StatesBounded draft.now) }
{
    if draft.large {
        return Ok(Some(Cause::Size));
    }
    if !has_row(alloc, draft, context)? {
        return Ok(Some(Cause::Row));
    }
    Ok(None)
}

/// Whether two words are the same.
fn same_word(left: &Word, right: &Word) -> bool
    ensures { IsTrue result ↔ (left.now.items ≡ right.now.items) }
{
    left.as_slice() == right.as_slice()
}

/// Whether the element is given by its normal form, of at most [`MAX_DIFFERENCE`] letters.
fn has_top(draft: &Draft) -> bool
    requires { HasCertificate draft.now }
    ensures { IsTrue result ↔ StatesTop draft.now }
{
    if draft.top.len() > MAX_DIFFERENCE {
        return false;
    }
    same_word(&normal_form(&draft.group, &draft.top), &draft.top)
}

/// The elements below the element, if the words of the entries are these, in ShortLex order.
fn interval_of(alloc: Global, draft: &Draft) -> Result<Option<Context>, AllocError>
    requires certificate { HasCertificate draft.now }
    requires top { StatesTop draft.now }
    ensures context { IfOk result (λ found. IfSome found (λ context. (context.matrix ≡ draft.now.group)
        × (context.members ≡ letters_of draft.now.words.items))) }
    ensures interval { IfOk result (λ found. MatchOption found (¬ StatesInterval draft.now) (λ _. StatesInterval draft.now)) }
{
    let _rank = draft.group.rank();
    match Context::of_short_interval(alloc, &draft.group, &draft.top, MAX_LISTED as u32) {
        Ok(context) => {
            if !has_members(&context, draft.words.as_slice()) {
                return Ok(None);
            }
            Ok(Some(context))
        }
        Err(ContextFault::Size { .. }) => Ok(None),
        Err(ContextFault::NoMemory) => Err(AllocError),
        // No member has more letters than the element.
        Err(ContextFault::Long) => unreachable!(),
    }
}

/// Whether these words are the members, in order.
fn has_members(context: &Context, words: &[Word]) -> bool
    ensures { IsTrue result ↔ (context.now.members ≡ letters_of words.now) }
{
    if context.len() as usize != words.len() {
        return false;
    }
    for i in 0..context.len() {
        if !same_word(&context.word(i), &words[i as usize]) {
            return false;
        }
    }
    true
}

/// Whether the polynomials are the row of the element. The members are those below it, and it is the last.
fn has_row(alloc: Global, draft: &Draft, context: &Context) -> Result<bool, AllocError>
    requires certificate { HasCertificate draft.now }
    requires top { StatesTop draft.now }
    requires interval { StatesInterval draft.now }
    requires small { draft.now.large ≡ false }
    requires matrix { context.now.matrix ≡ draft.now.group }
    requires members { context.now.members ≡ letters_of draft.now.words.items }
    ensures row { IfOk result (λ answer. IsTrue answer ↔ StatesRow draft.now) }
    ensures bounded { OnErr result (StatesBounded draft.now) }
{
    let last = context.len() - 1;
    is_row(alloc, context, last, draft.polynomials.as_slice())
}
