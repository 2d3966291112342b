//! What a program is given where a test runs it whole.
use crate::command_line::CommandLine;
use cox_outside::{MemorySink, MemorySource, arguments_of};
use std::alloc::{AllocError, Global};

/// What a program is given in a test: its arguments and its input, the sizes of a read and of a write, those that have to fail, and the
/// room for what is written.
#[derive(Clone, Copy)]
pub struct Trial<'a> {
    pub arguments: &'a [&'a [u8]],
    pub input: &'a [u8],
    pub read: usize,
    pub write: usize,
    pub failing_reads: &'a [u64],
    pub failing_writes: &'a [u64],
    pub room: usize,
}

impl<'a> Trial<'a> {
    /// A trial in which nothing fails, by large reads and writes.
    pub fn plain(arguments: &'a [&'a [u8]], input: &'a [u8]) -> Trial<'a> {
        Trial {
            arguments,
            input,
            read: 4096,
            write: 4096,
            failing_reads: &[],
            failing_writes: &[],
            room: 100_000,
        }
    }

    /// The source and the sink.
    pub fn streams(&self, alloc: Global) -> Result<(MemorySource, MemorySink), AllocError> {
        let input = self.input.to_vec(alloc)?;
        let reads = self.failing_reads.to_vec(alloc)?;
        let writes = self.failing_writes.to_vec(alloc)?;
        let source = MemorySource::new(input, self.read.max(1), reads);
        let sink = MemorySink::new(alloc, self.room, self.write.max(1), writes)?;
        Ok((source, sink))
    }

    /// The arguments, as a program of this name collects them.
    pub fn collected(&self, alloc: Global, name: &str) -> Result<Option<Vec<String>>, AllocError> {
        arguments_of(&CommandLine(self.arguments), alloc, name)
    }
}
