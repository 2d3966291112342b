//! Whole runs from the arguments of an environment, over a source and a sink in memory.
use crate::{NAME, start};
use cox_doubles::Trial;
use cox_outside::{Gate, MemorySink, Open};
use cox_shell::Status;
use std::alloc::{AllocError, Global};
use std::process::Abort;
use std::sync::Wait;
use std::test::Fail;
use std::thread::Threads;

/// How a run ends that is given this, behind this gate, and the sink that it wrote to.
pub fn end_of<R: Threads + Wait + Sync, G: Gate + Sync>(
    rt: &R,
    alloc: Global,
    trial: Trial,
    gate: &G,
) -> Result<(Status, MemorySink), AllocError> {
    let (mut source, mut sink) = trial.streams(alloc)?;
    let found = trial.collected(alloc, NAME);
    let status = start(rt, alloc, found, &mut source, &mut sink, gate);
    Ok((status, sink))
}

/// Asserts how a run ends that is given this, and what it writes.
pub fn assert_end<R: Abort + Threads + Wait + Sync>(
    rt: &R,
    alloc: Global,
    trial: Trial,
    status: Status,
    written: &[u8],
) -> Result<(), Fail> {
    let (ended, sink) = end_of(rt, alloc, trial, &Open)?;
    assert_wrote(rt, &trial, (ended, sink.bytes()), (status, written));
    Ok(())
}

/// Asserts that a run ended as it has to, and wrote what it has to.
fn assert_wrote(rt: &impl Abort, trial: &Trial, found: (Status, &[u8]), wanted: (Status, &[u8])) {
    assert!(rt;
        found == wanted,
        "{:?} {:?} at {:?} {:?}",
        found.0,
        str::from_utf8(found.1).ok(),
        trial.arguments,
        str::from_utf8(trial.input).ok()
    );
}
