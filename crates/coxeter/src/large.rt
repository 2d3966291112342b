//! Large answers, which no lack of memory cuts off, with values from outside; and lines and inputs at their limits.
use crate::runs::{assert_end, end_of};
use cox_doubles::Trial;
use cox_outside::Open;
use cox_shell::Status;
use std::alloc::{AllocError, Global};
use std::sync::Wait;
use std::test::Fail;
use std::thread::Threads;

/// Scripts, and how what is written begins: numbers of cells from the literature. A 6 has 5,040 elements, of which 232 are involutions or
/// the identity; 7 has 15 partitions; and E 6, which has 51,840 elements, has 17 families of representations.
const CELLS: &[(&str, &str)] = &[
    ("type A 3\nlcells\n", "10\n"),
    ("type A 3\nlrcells\n", "5\n"),
    ("type B 3\nlcells\n", "14\n"),
    ("type B 3\nlrcells\n", "6\n"),
    ("type G 2\nlcells\n", "4\n"),
    ("type A 4\nlcells\n", "26\n"),
    ("type A 4\nlrcells\n", "7\n"),
    ("type F 4\nlrcells\n", "11\n"),
    ("type A 6\nlcells\n", "232\n"),
    ("type A 6\nlrcells\n", "15\n"),
    ("type E 6\nlrcells\n", "17\n"),
];

/// In the infinite dihedral group 510 elements are below a word of 255 letters: all shorter ones, and itself. B 7 has 645,120 elements, and
/// half of 49 is their mean length. A line for each has its letters, or `e`, and the end: 16,450,568 bytes, with that of the number.
const LISTS: &[(&str, &str, usize)] = &[
    (
        concat!(
            "matrix 2 0\nklbasis 1",
            "2121212121212121212121212121212121212121212121212121212121212121212121212121212121212121212121",
            "2121212121212121212121212121212121212121212121212121212121212121212121212121212121212121212121",
            "212121212121212121212121212121212121212121212121212121212121212121\n",
        ),
        "510\ne:1\n1:1\n2:1\n12:1\n",
        66_560,
    ),
    (
        "type B 7\ninterval e 1234567654321234567654323456765434567654567656767\n",
        "645120\ne\n1\n",
        16_450_568,
    ),
];

/// How many bytes a run over a script writes, if they begin so, and it ends well.
fn size_of<R: Threads + Wait + Sync>(
    rt: &R,
    alloc: Global,
    script: &str,
    beginning: &str,
) -> Result<Option<usize>, AllocError> {
    let trial = Trial {
        write: usize::MAX,
        room: 17_000_000,
        ..Trial::plain(&[b"coxeter"], script.as_bytes())
    };
    let (status, sink) = end_of(rt, alloc, trial, &Open)?;
    let bytes = sink.bytes();
    let is_so = status == Status::Done && bytes.starts_with(beginning.as_bytes());
    Ok(if is_so { Some(bytes.len()) } else { None })
}

#[test]
fn cells(rt: HostRuntime) -> Result<(), Fail> {
    for (script, beginning) in CELLS {
        let size = size_of(&rt, rt.alloc(), script, beginning)?;
        assert!(rt; size.is_some(), "at {script:?}");
    }
    Ok(())
}

#[test]
fn lists(rt: HostRuntime) -> Result<(), Fail> {
    for (script, beginning, wanted) in LISTS {
        let size = size_of(&rt, rt.alloc(), script, beginning)?;
        assert!(rt; size == Some(*wanted), "at {script:?}");
    }
    Ok(())
}

/// Scripts by their first bytes, the size that they are filled up to, the byte for that, and their last bytes; what has to be written, and
/// how the run has to end.
type Filled = (
    &'static [u8],
    usize,
    u8,
    &'static [u8],
    &'static [u8],
    Status,
);

/// Lines of 4,096 bytes and more, and inputs of 16,777,216 bytes and more.
const FILLED: &[Filled] = &[
    (b"", 4096, b' ', b"\r\n", b"", Status::Done),
    (b"", 4096, b'z', b"\n", b"error 10\n", Status::Refused),
    (b"", 4097, b' ', b"\n", b"error 18\n", Status::Refused),
    (b"\t", 5000, b'z', b"\n", b"error 18\n", Status::Refused),
    (b"", 16_777_216, b'\n', b"", b"", Status::Done),
    (b"", 16_777_216, b'\n', b"\n", b"", Status::InputLimit),
    (b"", 16_777_216, b'z', b"", b"error 18\n", Status::Refused),
    (b"", 16_777_216, b'z', b"z", b"", Status::InputLimit),
    (b"quit\n", 17_000_000, b'z', b"", b"", Status::Done),
];

#[test]
fn limits_of_bytes(rt: HostRuntime) -> Result<(), Fail> {
    for (first, size, byte, last, written, status) in FILLED {
        let mut script = first.to_vec(rt.alloc())?;
        script.resize(*size, *byte)?;
        script.extend_from_slice(last)?;
        let trial = Trial::plain(&[b"coxeter"], &script);
        assert_end(&rt, rt.alloc(), trial, *status, written)?;
    }
    Ok(())
}
