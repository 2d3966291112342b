//! Whole runs with several workers: they write the same bytes, they work at once, and they make no row twice.
ghost use Rattle.std.specs.Prelude.{◌≡◌, true};

use crate::runs::{assert_end, end_of};
use cox_doubles::{Census, Trial};
use cox_outside::{Gate, MemorySink, Open};
use cox_shell::{Session, Status};
use std::alloc::{AllocError, Global};
use std::process::Abort;
use std::sync::Wait;
use std::test::Fail;
use std::thread::Threads;

/// How a run over a script with this number of workers ends, and the sink that it wrote to.
fn run_by<R: Threads + Wait + Sync, G: Gate + Sync>(
    rt: &R,
    alloc: Global,
    script: &str,
    workers: &[u8],
    gate: &G,
) -> Result<(Status, MemorySink), AllocError> {
    let arguments: [&[u8]; 3] = [b"coxeter", b"--workers", workers];
    let trial = Trial::plain(&arguments, script.as_bytes());
    end_of(rt, alloc, trial, gate)
}

/// Scripts that have to write the same with any number of workers.
const SCRIPTS: &[&str] = &[
    concat!(
        "pol e 1\nmatrix 2 5\ntype H 3\nfoo\ncompute\nmatrix 10\nmatrix 2\ntype A x\ntype A 4\nlrcells\nwork 7 20\ntype D 5\nlrcells\n",
        "type A 4\njobs\nlcells\nnext\nklbasis 12321\nend\n",
        "type B 3\nklbasis 12321\npol e 123212321\nlwgraph\nmu 1 12321\nrcells\nextremals 232123\n",
        "type A 3\ninvpol 2 2132\ninvpol e 121321\nmatrix 3 3 3 3\ninvpol 3 32132132\n",
        "type A 3\njobs\nlrcells\nnext\nfoo\n\tpol\nnext\n\nnext\nquit\nmu 2 2132\nnext\nend\njobs\nklbasis 2132\nnext\npol 2 2132",
    ),
    "type A 4\npol e 123\nquit\n",
];

/// Each number of workers.
const NUMBERS: &[&[u8]] = &[
    b"1", b"2", b"3", b"4", b"5", b"6", b"7", b"8", b"9", b"10", b"11", b"12", b"13", b"14", b"15",
    b"16",
];

#[test]
fn write_the_same(rt: HostRuntime) -> Result<(), Fail> {
    for script in SCRIPTS {
        let trial = Trial::plain(&[b"coxeter"], script.as_bytes());
        let (status, sink) = end_of(&rt, rt.alloc(), trial, &Open)?;
        writes_so(&rt, rt.alloc(), script, status, sink.bytes())?;
    }
    Ok(())
}

/// Asserts how a run ends and what it writes, by each number of workers.
fn writes_so<R: Abort + Threads + Wait + Sync>(
    rt: &R,
    alloc: Global,
    script: &str,
    status: Status,
    written: &[u8],
) -> Result<(), Fail> {
    for workers in NUMBERS {
        let arguments: [&[u8]; 3] = [b"coxeter", b"--workers", workers];
        let trial = Trial::plain(&arguments, script.as_bytes());
        assert_end(rt, alloc, trial, status, written)?;
    }
    Ok(())
}

/// A list of 16 blocks that ask for all rows of D 5, and a line behind it that asks for them again.
const LIST: &str = concat!(
    "type D 5\njobs\nmodule e\nnext\nmodule e\nnext\nmodule e\nnext\nmodule e\nnext\nmodule e\nnext\nmodule e\n",
    "next\nmodule e\nnext\nmodule e\nnext\nmodule e\nnext\nmodule e\nnext\nmodule e\nnext\nmodule e\n",
    "next\nmodule e\nnext\nmodule e\nnext\nmodule e\nnext\nlrcells\nend\nlrcells\n",
);

/// What a gate has counted: workers that claimed rows, blocks that were begun, and holds that ended before others came; rows that were
/// published once and more often; and rows that somebody came to claim.
#[derive(Clone, Copy, Debug, PartialEq, Eq)]
struct Counts {
    seen: (u64, u64, u64),
    published: (usize, usize),
    claimed: usize,
}

/// Counts that `==` tells to be equal are the same.
pub fn equal_counts()
    ensures { (a b : Counts) → ⟦<Counts as PartialEq>⟧.eq a b ≡ true → a ≡ b }
{}

/// What a gate counts in a run by so many workers, where so many are awaited, for so many rows; `None` where the run does not write what
/// one worker writes.
fn counts_of<R: Threads + Wait + Sync>(
    rt: &R,
    alloc: Global,
    script: &str,
    workers: &[u8],
    awaited: u64,
    rows: usize,
) -> Result<Option<Counts>, AllocError> {
    let (status, one) = run_by(rt, alloc, script, b"1", &Open)?;
    let gate = Census::new(alloc, awaited, rows)?;
    let (ended, sink) = run_by(rt, alloc, script, workers, &gate)?;
    let counts = Counts {
        seen: gate.seen(),
        published: gate.published(),
        claimed: gate.claimed(),
    };
    let is_same = ended == status && sink.bytes() == one.bytes();
    Ok(if is_same { Some(counts) } else { None })
}

/// As many workers as are asked for make all 1,920 rows before the first block begins, each once, and answer as many blocks at once.
#[test]
fn work_at_once(rt: HostRuntime) -> Result<(), Fail> {
    for (awaited, workers) in [(2u64, b"2"), (4, b"4")] {
        let wanted = Counts {
            seen: (awaited, 16, 0),
            published: (1920, 0),
            claimed: 1920,
        };
        let counts = counts_of(&rt, rt.alloc(), LIST, workers, awaited, 1920)?;
        assert_eq!(rt; counts, Some(wanted), "{awaited} workers");
    }
    Ok(())
}

/// The second line asks for rows that the first one made, of an element of E 6 with 35 letters: none is made again.
#[test]
fn keep_rows(rt: HostRuntime) -> Result<(), Fail> {
    let script = concat!(
        "type E 6\npol e 12314231435423143542654231435426543\n",
        "pol 1 12314231435423143542654231435426543\n",
    );
    let counts = counts_of(&rt, rt.alloc(), script, b"2", 1, 51_840)?;
    let (once, again) = counts.map_or((0, 0), |counts| counts.published);
    assert!(rt; once > 0 && again == 0);
    Ok(())
}

/// Few rows, which cost little, are made by one thread, and a list of short lines is answered by one: no other is started for them.
#[test]
fn few_rows_pass_no_gate(rt: HostRuntime) -> Result<(), Fail> {
    let script = "type A 4\nklbasis 12321\nlrcells\njobs\npol 2 2132\nnext\nmu 2 2132\nend\n";
    let none = Counts {
        seen: (0, 0, 0),
        published: (0, 0),
        claimed: 0,
    };
    assert_eq!(rt;
        counts_of(&rt, rt.alloc(), script, b"2", 1, 120)?,
        Some(none)
    );
    Ok(())
}

/// The calls of a session that `run` does not make.
#[test]
fn answer_by_calls(rt: HostRuntime) -> Result<(), Fail> {
    let options = cox_options::read(rt.alloc(), &["coxeter", "--workers", "3"])?;
    answer_lines(&rt, rt.alloc(), &mut Session::new(options))
}

/// Answers two lines, and then a list with a line that is too long: by workers, and by one thread.
fn answer_lines<R: Abort + Threads + Wait + Sync>(
    rt: &R,
    alloc: Global,
    session: &mut Session,
) -> Result<(), Fail> {
    let mut out = Vec::new(alloc);
    session.answer(b"type A 3", &mut out)?;
    for line in ["pol 2 2132", "mu 2 2132", "jobs", "pol 2 2132", "next"] {
        session.answer_with(rt, line.as_bytes(), &mut out, &Open)?;
    }
    session.bad(18, &mut out)?;
    let blocks = session.blocks().ok_or("no list is open")?;
    session.answer_jobs(rt, blocks, &mut out, &Open)?;
    session.answer_jobs_one(blocks, &mut out)?;
    assert!(rt; out.as_slice() == b"1+q\n1\n1+q\nerror 18\n1+q\nerror 18\n".as_slice());
    Ok(())
}
