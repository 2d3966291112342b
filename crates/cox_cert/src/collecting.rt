//! The certificate that the lines of a source give.
ghost use Rattle.std.specs.Prelude.{◌≡◌, None};
ghost use Rattle.cox_outside.specs.Ahead.{ahead};
ghost use Rattle.cox_outside.specs.Reader.{fresh_reader};
ghost use Rattle.cox_outside.specs.Supply.{SourceCause};
ghost use Rattle.cox_cert.specs.Checks.{ReadsWithin};
ghost use Rattle.cox_cert.specs.Collected.{TakesOrHalts, Gathers, has_failed, status_of};

use crate::draft::{Draft, Form, finished, take};
use crate::status::{Cause, CheckStatus};
use cox_outside::{LineReader, Next, Source};
use std::alloc::Global;

/// Why no certificate was read.
#[derive(Clone, Copy, Debug, PartialEq, Eq)]
pub(crate) enum Halt {
    /// No certificate has these lines.
    Foreign,
    /// A read failed.
    Failed,
    /// There were more bytes than may be read.
    Limit,
    /// Memory ran out.
    NoMemory,
}

impl Halt {
    /// How the check ends then.
    pub(crate) fn status(self) -> CheckStatus
        ensures { result ≡ status_of self }
    {
        match self {
            Halt::Foreign => CheckStatus::No(Cause::Grammar),
            Halt::Failed => CheckStatus::ReadFault,
            Halt::Limit => CheckStatus::InputLimit,
            Halt::NoMemory => CheckStatus::NoMemory,
        }
    }
}

/// Reads the certificate that the lines of the source give, to their end.
pub(crate) fn collect<S: Source>(
    alloc: Global,
    reader: &mut LineReader,
    source: &mut S,
) -> Result<Draft, Halt>
    requires { reader.old ≡ fresh_reader }
    ensures gathers { Gathers result (S.seen source.old).left (S.seen source.new).left }
    ensures within { ReadsWithin (S.seen source.old).left (S.seen source.new).left }
    ensures cause { SourceCause (S.seen source.old) (S.seen source.new) (has_failed result) }
{
    let mut form = Form::Start;
    'lines: while !reader.has_stopped() {
        match take_next(alloc, form, reader, source) {
            Ok(next) => form = next,
            Err(halt) => return Err(halt),
        }
    }
    match finished(form) {
        Some(draft) => Ok(draft),
        None => Err(Halt::Foreign),
    }
}

/// The certificate with the next line; as it is, where the input has ended.
fn take_next<S: Source>(
    alloc: Global,
    form: Form,
    reader: &mut LineReader,
    source: &mut S,
) -> Result<Form, Halt>
    requires { reader.old.stop ≡ None }
    ensures steps { TakesOrHalts result form reader.new.stop (ahead reader.old.feed (S.seen source.old).left)
        (ahead reader.new.feed (S.seen source.new).left) }
    ensures cause { SourceCause (S.seen source.old) (S.seen source.new) (has_failed result) }
{
    match reader.next(source) {
        Next::Line(line) => match take(alloc, form, line) {
            Ok(Some(next)) => Ok(next),
            Ok(None) => Err(Halt::Foreign),
            Err(_) => Err(Halt::NoMemory),
        },
        Next::Long(_) => Err(Halt::Foreign),
        Next::Byte(_) => Err(Halt::Foreign),
        Next::End => Ok(form),
        Next::Failed => Err(Halt::Failed),
        Next::Limit => Err(Halt::Limit),
    }
}
