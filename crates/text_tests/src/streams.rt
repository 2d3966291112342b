//! Sources and sinks over streams. Each read and each write asks the stream once, and fails exactly where it does: streams count the calls.
ghost use Rattle.std.specs.Prelude.{◌≤◌};

use cox_outside::{
    CHUNK_SIZE, Got, INPUT_LIMIT, LINE_LIMIT, LineReader, Next, Sink, Source, StdSink, StdSource,
    Took, write_all,
};
use std::io;
use std::io::{Read, Write};
use std::sync::atomic::AtomicU64;
use std::sync::atomic::Ordering::SeqCst;
use std::test::Fail;

/// How many calls a stream had, and how many bytes the last of them asked for or gave.
#[derive(Drop)]
struct Calls {
    made: AtomicU64,
    size: AtomicU64,
}

impl Calls {
    fn none() -> Calls {
        Calls {
            made: AtomicU64::new(0),
            size: AtomicU64::new(0),
        }
    }

    /// Counts a call with a buffer of this size, and says whether it has to fail: each third one has.
    fn count(&self, size: usize) -> bool {
        self.size.store(size as u64, SeqCst);
        self.made.fetch_add(1, SeqCst) % 3 == 2
    }

    /// The number of calls, and what the last of them asked for or gave.
    fn told(&self) -> (u64, u64) {
        (self.made.load(SeqCst), self.size.load(SeqCst))
    }
}

/// A stream that gives or takes at most so many bytes at a call.
#[derive(Drop)]
struct Stream<'a> {
    calls: &'a Calls,
    piece: usize,
    left: usize,
}

impl<'a> Stream<'a> {
    fn new(calls: &'a Calls, piece: usize, left: usize) -> Stream<'a> {
        Stream { calls, piece, left }
    }

    /// How many of so many bytes it gives or takes, which are then gone.
    fn take(&mut self, size: usize) -> usize
        ensures { result ≤ size }
    {
        let count = self.left.min(self.piece).min(size);
        self.left -= count;
        count
    }
}

impl Read for Stream<'_> {
    fn read(&mut self, buf: &mut [u8]) -> io::Result<usize> {
        if self.calls.count(buf.len()) {
            return Err(io::ErrorKind::Interrupted.into());
        }
        let count = self.take(buf.len());
        buf[..count].fill(b'a');
        Ok(count)
    }
}

impl Write for Stream<'_> {
    fn write(&mut self, buf: &[u8]) -> io::Result<usize> {
        if self.calls.count(buf.len()) {
            return Err(io::ErrorKind::Interrupted.into());
        }
        Ok(self.take(buf.len()))
    }

    fn flush(&mut self) -> io::Result<()> {
        Ok(())
    }
}

/// A stream that fails at each call, by this kind of fault.
#[derive(Drop)]
struct Failing<'a> {
    calls: &'a Calls,
    kind: io::ErrorKind,
}

impl Read for Failing<'_> {
    fn read(&mut self, buf: &mut [u8]) -> io::Result<usize> {
        self.calls.count(buf.len());
        Err(self.kind.into())
    }
}

impl Write for Failing<'_> {
    fn write(&mut self, buf: &[u8]) -> io::Result<usize> {
        self.calls.count(buf.len());
        Err(self.kind.into())
    }

    fn flush(&mut self) -> io::Result<()> {
        Ok(())
    }
}

/// How many bytes each call of a stream of 20 bytes moves, at most seven; at 0 it fails.
const MOVED: [[usize; 6]; 3] = [[1, 1, 0, 1, 1, 0], [2, 2, 0, 2, 2, 0], [7, 7, 0, 6, 0, 0]];

#[test]
fn reads_ask_once(rt: HostRuntime) -> Result<(), Fail> {
    for (size, counts) in [1, 2, 4096].into_iter().zip(MOVED) {
        let calls = Calls::none();
        let mut source = StdSource::new(Stream::new(&calls, 7, 20));
        let mut made: u64 = 0;
        for count in counts {
            let mut buffer = vec![in rt.alloc(); 0u8; size]?;
            assert!(rt; buffer.len() > 0);
            let wanted = match (count, made) {
                (0, 4) => Got::End,
                (0, _) => Got::Failed,
                _ => Got::Bytes(count),
            };
            let got = source.read(&mut buffer);
            made = made.saturating_add(1);
            let written = buffer.iter().filter(|byte| **byte == b'a').count();
            assert_eq!(rt;
                (got, calls.told(), written),
                (wanted, (made, size as u64), count)
            );
        }
    }
    Ok(())
}

/// A writer that takes nothing has failed.
#[test]
fn writes_ask_once(rt: HostRuntime) -> Result<(), Fail> {
    for (size, counts) in [1, 2, 2_000_000].into_iter().zip(MOVED) {
        let calls = Calls::none();
        let mut sink = StdSink::new(Stream::new(&calls, 7, 20));
        let mut made: u64 = 0;
        for count in counts {
            let bytes = vec![in rt.alloc(); b'a'; size]?;
            assert!(rt; bytes.len() > 0);
            let wanted = match count {
                0 => Took::Failed,
                _ => Took::Bytes(count),
            };
            let took = sink.write(&bytes);
            made = made.saturating_add(1);
            assert_eq!(rt; (took, calls.told()), (wanted, (made, size as u64)));
        }
    }
    Ok(())
}

/// A fault is told at once, whatever its kind: the call is not made once more.
#[test]
fn faults_are_told_at_once(rt: HostRuntime) -> Result<(), Fail> {
    for kind in [
        io::ErrorKind::Interrupted,
        io::ErrorKind::WouldBlock,
        io::ErrorKind::UnexpectedEof,
    ] {
        let calls = Calls::none();
        let mut source = StdSource::new(Failing {
            calls: &calls,
            kind,
        });
        let mut sink = StdSink::new(Failing {
            calls: &calls,
            kind,
        });
        let told = (source.read(&mut [0u8; 1]), sink.write(b"a"));
        assert_eq!(rt; told, (Got::Failed, Took::Failed));
        assert_eq!(rt; calls.told(), (2, 1));
    }
    Ok(())
}

#[test]
fn limits(rt: HostRuntime) -> Result<(), Fail> {
    assert_eq!(rt;
        (CHUNK_SIZE, LINE_LIMIT, INPUT_LIMIT),
        (4096, 4096, 16_777_216)
    );
    let calls = Calls::none();
    let mut source = StdSource::new(Stream::new(&calls, 7, 5));
    let mut reader = LineReader::new(rt.alloc())?;
    assert!(rt; matches!(reader.next(&mut source), Next::Line(b"aaaaa")));
    assert_eq!(rt; calls.told(), (2, 4096));
    Ok(())
}

#[test]
fn hands_on_what_streams_give_and_take(rt: HostRuntime) -> Result<(), Fail> {
    let text: &[u8] = b"abc";
    let mut source = StdSource::new(text);
    let mut buffer = [0u8; 2];
    let got = source.read(&mut buffer);
    assert!(rt; got == Got::Bytes(2) && buffer == *b"ab");
    let got = (source.read(&mut buffer), source.read(&mut buffer));
    assert_eq!(rt; got, (Got::Bytes(1), Got::End));

    let mut room = [0u8; 4];
    let mut sink = StdSink::new(room.as_mut_slice());
    let took = (write_all(&mut sink, b"abcd"), sink.write(b"e"));
    assert_eq!(rt; took, (Ok(()), Took::Failed));
    Ok(())
}
