//! The program `coxeter`: it answers the script on standard input, on standard output.
//!
//! It reads lines, answers each, and ends with the number of a `cox_shell::Status`. All text goes to standard output. `cox_shell` proves
//! what is written, and starts at most as many threads as the arguments say; the gate that `main` hands to them holds nobody. `main`
//! collects the arguments, which may run out of memory, and makes the standard streams; no other function sees the environment. If an
//! argument is no text, arguments that are refused take the place of all. Each function but `main` is generic over the source and the
//! sink. Its contract is that of one whole run (`IsRunWith`, `IsRunOfFound`), so nothing is read or written before, after or beside it.
//!
//! The scripts that need no arguments of their own are the crate's `stdin`, and what has to be written for them is its `stdout`. Tests:
//!
//! - `runs`: whole runs from the arguments of an environment, over a source and a sink in memory
//! - `starting`: such runs with options and faults
//! - `large`: large answers, which no lack of memory cuts off; lines and inputs at their limits
//! - `workers`: such runs with several workers, some of them behind a gate
//! - `in_memory`: a script and its answer in memory, for programs that call the shell
#![tactic(auto)]

#[cfg(test)]
mod in_memory;
#[cfg(test)]
mod large;
#[cfg(test)]
mod runs;
#[cfg(test)]
mod starting;
#[cfg(test)]
mod workers;

ghost use Rattle.std.specs.Prelude.{◌≡◌, ℕ, List, map};
ghost use Rattle.std.specs.Process.{exit_status};
ghost use Rattle.std.specs.String.{string_bytes};
ghost use Rattle.cox_options.specs.Arguments.{IsUsage};
ghost use Rattle.cox_shell.specs.declared.status.Status.{Status};
ghost use Rattle.cox_shell.specs.ExitCode.{code_of};
ghost use Rattle.coxeter.specs.FoundArguments.{IsRunWith, IsRunOfFound};

use cox_options::wrong_arguments;
use cox_outside::{Gate, Open, Sink, Source, StdSink, StdSource, arguments_of, texts};
use cox_shell::{Status, run};
use std::alloc::{AllocError, Global};
use std::io;
use std::process::ExitCode;
use std::sync::Wait;
use std::thread::Threads;

/// What the program is called, as its first argument.
const NAME: &str = "coxeter";

/// Runs the shell with these arguments.
fn run_arguments<R: Threads + Wait + Sync, S: Source, K: Sink, G: Gate + Sync>(
    rt: &R,
    alloc: Global,
    arguments: &[String],
    source: &mut S,
    sink: &mut K,
    gate: &G,
) -> Status
    ensures { IsRunWith (map string_bytes arguments.now) result S.seen source.old source.new K.seen sink.old sink.new }
{
    match texts(alloc, arguments) {
        Ok(texts) => run(rt, alloc, &texts, source, sink, gate),
        Err(_) => Status::NoMemory,
    }
}

/// Runs the shell with arguments that are refused, where one of the given ones is no text.
fn refuse<R: Threads + Wait + Sync, S: Source, K: Sink, G: Gate + Sync>(
    rt: &R,
    alloc: Global,
    source: &mut S,
    sink: &mut K,
    gate: &G,
) -> Status
    ensures { (arguments : List (List ℕ)) × IsUsage arguments
        × IsRunWith arguments result S.seen source.old source.new K.seen sink.old sink.new }
{
    run(rt, alloc, &wrong_arguments(), source, sink, gate)
}

/// Runs the shell with the arguments that were found, or with refused ones where one is no text. If there was no memory to collect them,
/// nothing is read or written.
fn start<R: Threads + Wait + Sync, S: Source, K: Sink, G: Gate + Sync>(
    rt: &R,
    alloc: Global,
    found: Result<Option<Vec<String>>, AllocError>,
    source: &mut S,
    sink: &mut K,
    gate: &G,
) -> Status
    ensures { IsRunOfFound found result S.seen source.old source.new K.seen sink.old sink.new }
{
    match found {
        Ok(Some(arguments)) => run_arguments(rt, alloc, &arguments, source, sink, gate),
        Ok(None) => refuse(rt, alloc, source, sink, gate),
        Err(_) => Status::NoMemory,
    }
}

/// What the program ends with.
fn exit_code(status: Status) -> ExitCode
    ensures { exit_status result ≡ code_of status }
{
    ExitCode::from(status.code())
}

/// Runs the shell with the arguments that were found, and gives its status out. No contract tells which arguments an environment has.
fn ended<R: Threads + Wait + Sync, S: Source, K: Sink, G: Gate + Sync>(
    rt: &R,
    alloc: Global,
    found: Result<Option<Vec<String>>, AllocError>,
    source: &mut S,
    sink: &mut K,
    gate: &G,
) -> ExitCode
    ensures { (status : Status) × (exit_status result ≡ code_of status)
        × IsRunOfFound found status S.seen source.old source.new K.seen sink.old sink.new }
{
    exit_code(start(rt, alloc, found, source, sink, gate))
}

fn main(rt: HostRuntime) -> ExitCode {
    let alloc = rt.alloc();
    let found = arguments_of(&rt, alloc, NAME);
    let mut source = StdSource::new(rt.reader());
    let mut sink = StdSink::new(io::writer(&rt));
    ended(&rt, alloc, found, &mut source, &mut sink, &Open)
}
