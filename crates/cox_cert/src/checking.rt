//! The whole check.
ghost use Rattle.std.specs.Prelude.{◌≡◌, ◌≢◌, ◌<◌, ℕ, List, [], length};
ghost use Rattle.cox_outside.specs.Supply.{Supply, SourceCause};
ghost use Rattle.cox_cert.specs.Checks.{IsCheck, ReadsWithin, is_check_read_fault, words_behind};
ghost use Rattle.cox_cert.specs.Verdicts.{IsVerdict, IsTold, Tells};

use crate::collecting::collect;
use crate::judging::judge;
use crate::status::CheckStatus;
use cox_outside::{LineReader, Sink, Source, write_all};
use std::alloc::Global;

/// Checks the certificate that the source gives, and writes the verdict. `words` are the arguments, and begin with the program's name;
/// there may be no others.
///
/// The source is read to its end. Where its lines are those of no certificate, the rest may be unread. Of the text
/// `cert 1|element 1|rows 2|e:1|1:1|end`, with line ends for the bars, it writes `yes`.
pub fn check<S: Source, K: Sink>(
    alloc: Global,
    words: &[&str],
    source: &mut S,
    sink: &mut K,
) -> CheckStatus
    ensures check { IsCheck result (words_behind words.now) (S.seen source.old) (S.seen source.new) (K.seen sink.old) (K.seen sink.new) }
    ensures unread { 1 < length words.now → source.new ≡ source.old }
{
    if words.len() > 1 {
        return refuse_words(sink);
    }
    let due = verdict(alloc, source);
    tell(sink, due)
}

/// What [`check`] does where words follow the program's name, whichever these are: it writes the usage line, and reads nothing.
pub fn refuse_words<K: Sink>(sink: &mut K) -> CheckStatus
    ensures { (words : List (List ℕ)) → words ≢ [] → (source : Supply)
        → IsCheck result words source source (K.seen sink.old) (K.seen sink.new) }
{
    tell(sink, CheckStatus::Usage)
}

/// How the check of the text ends, before anything is written.
fn verdict<S: Source>(alloc: Global, source: &mut S) -> CheckStatus
    ensures is { IsVerdict result (S.seen source.old).left (S.seen source.new).left }
    ensures within { ReadsWithin (S.seen source.old).left (S.seen source.new).left }
    ensures cause { SourceCause (S.seen source.old) (S.seen source.new) (is_check_read_fault result) }
{
    let Ok(mut reader) = LineReader::new(alloc) else {
        return CheckStatus::NoMemory;
    };
    match collect(alloc, &mut reader, source) {
        Ok(draft) => judge(alloc, &draft),
        Err(halt) => halt.status(),
    }
}

/// Writes the text of the status that is due, and answers it, or that a write failed.
fn tell<K: Sink>(sink: &mut K, due: CheckStatus) -> CheckStatus
    requires { IsTold due }
    ensures { Tells result due (K.seen sink.old) (K.seen sink.new) }
{
    let text = due.text();
    if text.is_empty() {
        return due;
    }
    match write_all(sink, text) {
        Ok(()) => due,
        Err(_) => CheckStatus::WriteFault,
    }
}
