//! The program `coxcheck`: it checks the certificate on standard input, and writes the verdict on standard output.
//!
//! It ends with the number of a `cox_cert::CheckStatus`. What it writes is proved in `cox_cert`. `main` collects the arguments, which may
//! run out of memory, and makes the standard streams. Of words behind the program's name it matters only that there are some, so one that
//! is no text is refused as any other. Each function but `main` is generic over the source and the sink, and its contract is that of one
//! whole check (`IsCheckWith`, `IsCheckOfCollected`), so nothing is read or written before it, behind it or beside it.
#![tactic(auto)]

ghost use Rattle.std.specs.Prelude.{◌≡◌, map, drop};
ghost use Rattle.std.specs.Process.{exit_status};
ghost use Rattle.std.specs.String.{string_bytes};
ghost use Rattle.cox_cert.specs.Checks.{check_code_of};
ghost use Rattle.cox_cert.specs.declared.status.CheckStatus.{CheckStatus};
ghost use Rattle.coxcheck.specs.CollectedArguments.{IsCheckWith, IsCheckOfCollected};

use cox_cert::{CheckStatus, check, refuse_words};
use cox_outside::{Sink, Source, StdSink, StdSource, arguments_of};
use std::alloc::{AllocError, Global};
use std::io;
use std::process::ExitCode;

/// What the program is called, as its first argument.
const NAME: &str = "coxcheck";

/// Checks with these arguments.
fn run_arguments<S: Source, K: Sink>(
    alloc: Global,
    arguments: &[String],
    source: &mut S,
    sink: &mut K,
) -> CheckStatus
    ensures { IsCheckWith (drop 1 (map string_bytes arguments.now)) result S.seen source.old source.new K.seen sink.old sink.new }
{
    if arguments.len() > 1 {
        return refuse_words(sink);
    }
    check(alloc, &[NAME], source, sink)
}

/// Checks with the arguments that were collected: those that are all texts, `None` where one is not, or want of memory. One that is no
/// text counts as words behind the name, so the check is the one that has any such words.
fn start<S: Source, K: Sink>(
    alloc: Global,
    collected: Result<Option<Vec<String>>, AllocError>,
    source: &mut S,
    sink: &mut K,
) -> CheckStatus
    ensures { IsCheckOfCollected collected result S.seen source.old source.new K.seen sink.old sink.new }
{
    match collected {
        Ok(Some(arguments)) => run_arguments(alloc, &arguments, source, sink),
        Ok(None) => refuse_words(sink),
        Err(_) => CheckStatus::NoMemory,
    }
}

/// What the program ends with.
fn exit_code(status: CheckStatus) -> ExitCode
    ensures { exit_status result ≡ check_code_of status }
{
    ExitCode::from(status.code())
}

/// Checks with the arguments that were collected, and gives the status out. No contract tells which arguments an environment has.
fn ended<S: Source, K: Sink>(
    alloc: Global,
    collected: Result<Option<Vec<String>>, AllocError>,
    source: &mut S,
    sink: &mut K,
) -> ExitCode
    ensures { (status : CheckStatus) × (exit_status result ≡ check_code_of status)
        × IsCheckOfCollected collected status S.seen source.old source.new K.seen sink.old sink.new }
{
    exit_code(start(alloc, collected, source, sink))
}

fn main(rt: HostRuntime) -> ExitCode {
    let alloc = rt.alloc();
    let collected = arguments_of(&rt, alloc, NAME);
    let mut source = StdSource::new(rt.reader());
    let mut sink = StdSink::new(io::writer(&rt));
    ended(alloc, collected, &mut source, &mut sink)
}
