//! Whole runs from the arguments of an environment: with options, with faults, and with inputs that end in each way.

use crate::NAME;
use crate::runs::assert_end;
use cox_doubles::{CommandLine, Trial};
use cox_outside::{Got, MemorySink, MemorySource, Source, arguments_of};
use cox_shell::{Status, run_one};
use std::test::Fail;

const USAGE: &str = "usage: coxeter [--workers N] [--context N] [--coef N] [--roots N]\n";

const SCRIPT: &str = "type A 3\npol 2 2132\ncompute x\nquit\nfoo\n";

/// The arguments, a script, what has to be written, and how the run has to end.
type Start = (&'static [&'static [u8]], &'static str, &'static str, Status);

const STARTS: &[Start] = &[
    // Each way in which an input ends, also inside a list. No words at all are as good as the name alone.
    (&[b"coxeter"], "", "", Status::Done),
    (&[], SCRIPT, "1+q\nerror 16\n", Status::Refused),
    (&[b"coxeter"], "quit\nfoo\n", "", Status::Done),
    (
        &[b"coxeter"],
        "type A 2\r\ncompute 212\r\nlength 212\r",
        "121\n3\n",
        Status::Done,
    ),
    (
        &[b"coxeter"],
        "type B 2\ncompute 2121\ncompute 121212",
        "1212\n21\n",
        Status::Done,
    ),
    (
        &[b"coxeter"],
        "type A 2\njobs\nlength 121\nnext\nlength 12",
        "3\n2\n",
        Status::Done,
    ),
    (
        &[b"coxeter"],
        "type A 1\njobs\nnext\nnext\nnext\nnext\nnext\nnext\nnext\nnext\nnext\nnext\nnext\nnext\nnext\nnext\nnext\n",
        "",
        Status::Done,
    ),
    (
        &[b"coxeter"],
        "type A 1\njobs\nnext\nnext\nnext\nnext\nnext\nnext\nnext\nnext\nnext\nnext\nnext\nnext\nnext\nnext\nnext\nnext\n",
        "error 35\n",
        Status::Refused,
    ),
    (&[b"coxeter"], SCRIPT, "1+q\nerror 16\n", Status::Refused),
    // All rows of a whole group, and a list, by two workers. In the left cell of e each letter acts as v^2.
    (
        &[b"coxeter", b"--workers", b"2"],
        "type D 5\nmodule e\ntype A 2\njobs\nwork 7 1\nnext\nlcells\nend\n",
        concat!(
            "1\ne\n1 e: e=v^2\n2 e: e=v^2\n3 e: e=v^2\n4 e: e=v^2\n5 e: e=v^2\n",
            "words 1 entries 4 degree 0 sum 4\n4\ne\n1 21\n2 12\n121\n",
        ),
        Status::Done,
    ),
    // Options at their limits. The name is none of them, and need be no text.
    (
        &[b"./\xff", b"--context", b"24", b"--workers=2"],
        "type A 3\nbetti 121321\ninterval e 121321\n",
        concat!(
            "1 3 5 6 5 3 1\n24\ne\n1\n2\n3\n12\n13\n21\n23\n32\n121\n123\n132\n213\n232\n321\n",
            "1213\n1232\n1321\n2132\n2321\n12132\n12321\n21321\n121321\n",
        ),
        Status::Done,
    ),
    (
        &[b"coxeter", b"--context=23"],
        "type A 3\nbetti 121321\ninterval e 121321\ninterval 121321 e\n",
        "error 31\nerror 31\n0\n",
        Status::Refused,
    ),
    (
        &[b"coxeter", b"--context", b"14"],
        "type A 3\nextremals 2132\npol e 12321\ninvpol 12 12321\nextremals 2132\ninvpol 2 2132\n",
        "4\n2:1+q\n121:1\n232:1\n2132:1\nerror 31\nerror 31\n4\n2:1+q\n121:1\n232:1\n2132:1\n1+q\n",
        Status::Refused,
    ),
    (
        &[b"coxeter", b"--context", b"7"],
        "type B 2\nwork 0 1\nlcells\npol e 12\n",
        "error 31\nerror 31\n1\n",
        Status::Refused,
    ),
    (
        &[b"coxeter", b"--context", b"4"],
        "type A 2\nbetti 12\n",
        "1 2 1\n",
        Status::Done,
    ),
    (
        &[b"coxeter", b"--context", b"3"],
        "type A 2\nbetti 12\ncoatoms 12\ninterval 12 1\ncert 12\ncert 1\n",
        "error 31\nerror 31\n0\nerror 31\ncert 2 3\nelement 1\nrows 2\ne:1\n1:1\nend\n",
        Status::Refused,
    ),
    (
        &[b"coxeter", b"--context", b"1"],
        "type A 1\ninterval e e\ninterval e 1\nbetti e\n",
        "1\ne\nerror 31\n1\n",
        Status::Refused,
    ),
    (
        &[b"coxeter", b"--roots", b"10"],
        "type A 4\ncompute 11\n",
        "e\n",
        Status::Done,
    ),
    (
        &[b"coxeter", b"--roots", b"9"],
        "type A 4\ncompute 11\n",
        "error 21\nerror 15\n",
        Status::Refused,
    ),
    (
        &[b"coxeter", b"--roots=2"],
        "type A 1\ntype A 2\ncompute 1\nmatrix 2 0\ncompute 12\n",
        "error 21\n1\n12\n",
        Status::Refused,
    ),
    (
        &[b"coxeter", b"--coef", b"9223372036854775807"],
        "type A 4\npol e 1234321\n",
        "1+2q+q^2\n",
        Status::Done,
    ),
    (
        &[b"coxeter", b"--coef", b"1"],
        concat!(
            "type A 4\npol e 1234321\nmu e 1234321\ncert 1234321\npol e 1\n",
            "invpol e 1234321\ninvpol 1234321 e\ninvpol 13 1234\nlrcells\nlwgraph\ntype A 2\nlrcells\n",
        ),
        concat!(
            "error 32\nerror 32\nerror 32\n1\n",
            "error 32\n0\n1\nerror 32\nerror 32\n3\ne\n1 2 12 21\n121\n",
        ),
        Status::Refused,
    ),
    // Four options in nine words, each of which is at work.
    (
        &[
            b"coxeter",
            b"--roots",
            b"10",
            b"--context",
            b"100",
            b"--coef",
            b"1",
            b"--workers",
            b"3",
        ],
        "type A 5\ntype A 4\nbetti 1213214321\npol e 1234321\npol 2 2132\n",
        "error 21\nerror 31\nerror 32\n1+q\n",
        Status::Refused,
    ),
    // Ten words, as many as are taken; and ten of which the last is no option.
    (
        &[
            b"coxeter",
            b"--roots",
            b"10",
            b"--context",
            b"100",
            b"--coef",
            b"1",
            b"--workers",
            b"1",
            b"--",
        ],
        "type A 5\ntype A 4\nbetti 1213214321\npol e 1234321\npol 2 2132\n",
        "error 21\nerror 31\nerror 32\n1+q\n",
        Status::Refused,
    ),
    (
        &[
            b"coxeter",
            b"--roots",
            b"10",
            b"--context",
            b"100",
            b"--coef",
            b"1",
            b"--workers",
            b"1",
            b"x",
        ],
        SCRIPT,
        USAGE,
        Status::Usage,
    ),
    // Wrong arguments; the last one here is no text.
    (&[b"coxeter", b"--foo"], SCRIPT, USAGE, Status::Usage),
    (
        &[
            b"coxeter",
            b"--context=23",
            b"--roots=6",
            b"--coef=1",
            b"-v",
        ],
        SCRIPT,
        USAGE,
        Status::Usage,
    ),
    (
        &[
            b"coxeter",
            b"--context=23",
            b"--roots=6",
            b"--coef=1",
            b"\xff",
        ],
        SCRIPT,
        USAGE,
        Status::Usage,
    ),
];

/// Arguments, a script, the reads of 16 bytes and the writes of five that fail, what has to be written, and how the run has to end.
type Faulty = (
    &'static [&'static [u8]],
    &'static str,
    &'static [u64],
    &'static [u64],
    &'static str,
    Status,
);

const FAULTS: &[Faulty] = &[
    (&[b"coxeter"], SCRIPT, &[2], &[], "", Status::ReadFault),
    (
        &[b"coxeter"],
        SCRIPT,
        &[3],
        &[],
        "1+q\nerror 16\n",
        Status::ReadFault,
    ),
    (
        &[b"coxeter", b"--workers=16"],
        SCRIPT,
        &[3],
        &[],
        "1+q\nerror 16\n",
        Status::ReadFault,
    ),
    // Of the lines of a list those that were read whole are answered.
    (
        &[b"coxeter", b"--workers=2"],
        "type A 3\njobs\npol 2 2132\nnext\nmu 2 2132\nend\n",
        &[3],
        &[],
        "1+q\n",
        Status::ReadFault,
    ),
    (
        &[b"coxeter"],
        SCRIPT,
        &[],
        &[2],
        "1+q\n",
        Status::WriteFault,
    ),
    (
        &[b"coxeter", b"--workers=16"],
        SCRIPT,
        &[],
        &[3],
        "1+q\nerror",
        Status::WriteFault,
    ),
    (
        &[b"coxeter", b"?"],
        SCRIPT,
        &[1],
        &[1],
        "",
        Status::WriteFault,
    ),
];

#[test]
fn starts(rt: HostRuntime) -> Result<(), Fail> {
    for (arguments, script, written, status) in STARTS {
        let trial = Trial::plain(arguments, script.as_bytes());
        assert_end(&rt, rt.alloc(), trial, *status, written.as_bytes())?;
    }
    Ok(())
}

#[test]
fn faults(rt: HostRuntime) -> Result<(), Fail> {
    for (arguments, script, reads, writes, written, status) in FAULTS {
        let trial = Trial {
            read: 16,
            write: 5,
            failing_reads: reads,
            failing_writes: writes,
            ..Trial::plain(arguments, script.as_bytes())
        };
        assert_end(&rt, rt.alloc(), trial, *status, written.as_bytes())?;
    }
    Ok(())
}

/// Whether these are the texts, all of them and in order.
fn are_texts(found: &[String], wanted: &[&str]) -> bool {
    found.len() == wanted.len()
        && found
            .iter()
            .zip(wanted)
            .all(|(text, want)| text.as_str() == *want)
}

#[test]
fn arguments(rt: HostRuntime) -> Result<(), Fail> {
    let named = CommandLine(&[b"./\xff", b"--context", b"\xc3\xa4"]);
    let found = arguments_of(&named, rt.alloc(), NAME)?.ok_or("these are texts")?;
    assert!(rt; are_texts(&found, &[NAME, "--context", "\u{e4}"]));
    Ok(())
}

/// The program's name alone, and ten words, as many as are taken.
const WORDS: &[&[&str]] = &[
    &["coxeter"],
    &[
        "coxeter",
        "--roots",
        "10",
        "--context",
        "100",
        "--coef",
        "1",
        "--workers",
        "1",
        "--",
    ],
];

#[test]
fn reads_nothing_after_quit(rt: HostRuntime) -> Result<(), Fail> {
    for words in WORDS {
        let script = b"type A 2\nquit\nfoo\n".to_vec(rt.alloc())?;
        let mut source = MemorySource::new(script, 1, Vec::new(rt.alloc()));
        let mut sink = MemorySink::new(rt.alloc(), 9, 9, Vec::new(rt.alloc()))?;
        let status = run_one(rt.alloc(), words, &mut source, &mut sink);
        let mut next = [0u8; 9];
        let got = source.read(&mut next);
        assert!(rt;
            (status, got, next[0]) == (Status::Done, Got::Bytes(1), b'f'),
            "at {words:?}"
        );
    }
    Ok(())
}
