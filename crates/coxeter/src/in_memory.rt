//! A script and its answer in memory: what a program of another crate does that calls the shell. docs/ARCHITECTURE.md shows it.
use cox_outside::{MemorySink, MemorySource};
use cox_shell::{Status, run_one};
use std::alloc::{AllocError, Global};
use std::rt::HostRuntime;
use std::test::Fail;

/// Answers a script, by an answer of at most `room` bytes. The sink has what was written, and its contract and that of `run_one` say what
/// that is.
fn answer_to(
    alloc: Global,
    script: &[u8],
    room: usize,
) -> Result<(Status, MemorySink), AllocError> {
    let mut source = MemorySource::new(script.to_vec(alloc)?, 4096, Vec::new(alloc));
    let mut sink = MemorySink::new(alloc, room, 4096, Vec::new(alloc))?;
    let status = run_one(alloc, &["coxeter"], &mut source, &mut sink);
    Ok((status, sink))
}

#[test]
fn answers_a_script(rt: HostRuntime) -> Result<(), Fail> {
    let (status, sink) = answer_to(rt.alloc(), b"type A 2\ncompute 212\nlength 212\n", 100)?;
    assert!(rt; status == Status::Done && sink.bytes() == b"121\n3\n".as_slice());
    Ok(())
}
