//! Whole checks of certificates over sources and sinks in memory.
ghost use Rattle.std.specs.Prelude.{◌≤◌};

use cox_cert::{Cause, CheckStatus, check};
use cox_doubles::Trial;
use std::alloc::{AllocError, Global};
use std::process::Abort;
use std::test::Fail;

/// The lines of a certificate, the status that is wanted, and what has to be written. A bar stands for LF.
type Case = (&'static str, CheckStatus, &'static str);

const NO_GRAMMAR: CheckStatus = CheckStatus::No(Cause::Grammar);

const NO_TOP: CheckStatus = CheckStatus::No(Cause::Top);

const NO_INTERVAL: CheckStatus = CheckStatus::No(Cause::Interval);

const NO_SIZE: CheckStatus = CheckStatus::No(Cause::Size);

const NO_ROW: CheckStatus = CheckStatus::No(Cause::Row);

/// In A 2 the row of `12` has 1 at the four elements below it.
const WHOLE: &str = "cert 2 3|element 12|rows 4|e:1|1:1|2:1|12:1|end|";

const CASES: &[Case] = &[
    (WHOLE, CheckStatus::Yes, "yes\n"),
    // In A 3 the row of 2132 has 1 + q at e and at 2.
    (
        concat!(
            "cert 3 3 2 3|element 2132|rows 14|e:1+q|1:1|2:1+q|3:1|12:1|13:1|21:1|23:1|32:1|",
            "121:1|132:1|213:1|232:1|2132:1|end|",
        ),
        CheckStatus::Yes,
        "yes\n",
    ),
    (
        concat!(
            "cert 3 3 2 3|element 2132|rows 14|e:1+q|1:1+q|2:1+q|3:1|12:1|13:1|21:1|23:1|32:1|",
            "121:1|132:1|213:1|232:1|2132:1|end|",
        ),
        NO_ROW,
        "no 5\n",
    ),
    // The last line need not end by LF.
    (
        "cert 2 3|element 12|rows 4|e:1|1:1|2:1|12:1|end",
        CheckStatus::Yes,
        "yes\n",
    ),
    (
        "cert 2 3\r|element 12\r|rows 4\r|e:1\r|1:1\r|2:1\r|12:1\r|end\r|",
        CheckStatus::Yes,
        "yes\n",
    ),
    (
        "cert 1|element e|rows 1|e:1|end|",
        CheckStatus::Yes,
        "yes\n",
    ),
    (
        "cert 2 3|element 12|rows 4|e:1+q|1:1|2:1|12:1|end|",
        NO_ROW,
        "no 5\n",
    ),
    (
        "cert 2 3|element 12|rows 4|e:1|1:1|2:1|12:2|end|",
        NO_ROW,
        "no 5\n",
    ),
    (
        "cert 2 3|element 12|rows 4|e:3000000000|1:1|2:1|12:1|end|",
        NO_SIZE,
        "no 4\n",
    ),
    (
        "cert 2 3|element 12|rows 4|e:1|1:1|2:1|12:q^40|end|",
        NO_SIZE,
        "no 4\n",
    ),
    (
        "cert 2 3|element 12|rows 3|e:1|1:1|12:1|end|",
        NO_INTERVAL,
        "no 3\n",
    ),
    // A coefficient that is too large is told only where the words are right.
    (
        "cert 2 3|element 12|rows 3|e:3000000000|1:1|12:1|end|",
        NO_INTERVAL,
        "no 3\n",
    ),
    (
        "cert 2 3|element 12|rows 4|e:1|2:1|1:1|12:1|end|",
        NO_INTERVAL,
        "no 3\n",
    ),
    (
        "cert 2 3|element 11|rows 4|e:1|1:1|2:1|12:1|end|",
        NO_TOP,
        "no 2\n",
    ),
    (
        "cert 2 3|element 11|rows 1|e:3000000000|end|",
        NO_TOP,
        "no 2\n",
    ),
    (
        "cert 2 3|element 12|rows 4|e:1|1:1|2:1|12:1|",
        NO_GRAMMAR,
        "no 1\n",
    ),
    (
        "cert 2 3|element 11|rows 4|e:1|1:1|2:1|12:1|",
        NO_GRAMMAR,
        "no 1\n",
    ),
    (
        "cert 2 3|element 12|rows 4|e:1|1:1|2:1|12:1|end||",
        NO_GRAMMAR,
        "no 1\n",
    ),
    (
        "cert 2 3|element 12|rows 4|e:1|1:1|2:1|end|",
        NO_GRAMMAR,
        "no 1\n",
    ),
    (
        "cert 2 3|element 12|rows 3|e:1|1:1|2:1|12:1|end|",
        NO_GRAMMAR,
        "no 1\n",
    ),
    (
        "cert 2 5|element 12|rows 4|e:1|1:1|2:1|12:1|end|",
        NO_GRAMMAR,
        "no 1\n",
    ),
    (
        "cert 2 3|element 13|rows 4|e:1|1:1|2:1|12:1|end|",
        NO_GRAMMAR,
        "no 1\n",
    ),
    (
        "cert 2 3|element 12|rows 04|e:1|1:1|2:1|12:1|end|",
        NO_GRAMMAR,
        "no 1\n",
    ),
    (
        "cert 2 3|element 12|rows 4|e:+1|1:1|2:1|12:1|end|",
        NO_GRAMMAR,
        "no 1\n",
    ),
    (
        "cert 2 3|element 12|rows 4|e:1|\t1:1|2:1|12:1|end|",
        NO_GRAMMAR,
        "no 1\n",
    ),
    ("", NO_GRAMMAR, "no 1\n"),
    ("|", NO_GRAMMAR, "no 1\n"),
    // There are more than 4,096 elements.
    (
        "cert 3 0 0 0|element 123123123123123123123123123123123123123|rows 1|e:1|end|",
        NO_INTERVAL,
        "no 3\n",
    ),
];

/// A text in which LF stands for each bar.
fn text_of(alloc: Global, lines: &str) -> Result<Vec<u8>, AllocError> {
    let mut text = Vec::with_capacity(alloc, lines.len())?;
    for &byte in lines.as_bytes() {
        text.push(if byte == b'|' { b'\n' } else { byte })?;
    }
    Ok(text)
}

/// Asserts how a check with these words and streams ends, and what it writes.
fn assert_end(
    rt: &impl Abort,
    alloc: Global,
    words: &[&str],
    trial: Trial,
    status: CheckStatus,
    written: &str,
) -> Result<(), Fail> {
    let (mut source, mut sink) = trial.streams(alloc)?;
    let ended = check(alloc, words, &mut source, &mut sink);
    assert_wrote(
        rt,
        trial.input,
        (ended, sink.bytes()),
        (status, written.as_bytes()),
    );
    Ok(())
}

/// Asserts that the check of a text ended as it has to, and wrote what it has to.
fn assert_wrote(
    rt: &impl Abort,
    text: &[u8],
    found: (CheckStatus, &[u8]),
    wanted: (CheckStatus, &[u8]),
) {
    assert!(rt;
        found == wanted,
        "{:?} at {:?}",
        found.0,
        str::from_utf8(text).ok()
    );
}

/// A trial with this text, by reads of 77 bytes and writes of three, and room for a line.
fn trial_of(text: &[u8]) -> Trial<'_> {
    Trial {
        read: 77,
        write: 3,
        room: 20,
        ..Trial::plain(&[], text)
    }
}

#[test]
fn verdicts(rt: HostRuntime) -> Result<(), Fail> {
    for (lines, status, written) in CASES {
        let text = text_of(rt.alloc(), lines)?;
        assert_end(&rt, rt.alloc(), &[], trial_of(&text), *status, written)?;
    }
    Ok(())
}

/// Appends the letters 1 and 2 in turn, so many of them.
fn push_letters(text: &mut Vec<u8>, first: u8, count: u32) -> Result<(), AllocError>
    requires { first ≤ 99 }
{
    for i in 0..count {
        text.push(if i % 2 == 0 { first } else { 99 - first })?;
    }
    Ok(())
}

/// The certificate of the word of so many letters in the infinite dihedral group, where each polynomial is 1.
fn dihedral(alloc: Global, letters: u32) -> Result<Vec<u8>, AllocError> {
    let mut text = b"cert 2 0\nelement ".to_vec(alloc)?;
    push_letters(&mut text, b'1', letters)?;
    text.extend_from_slice(if letters == 39 {
        b"\nrows 78\ne:1\n".as_slice()
    } else {
        b"\nrows 80\ne:1\n"
    })?;
    for count in 1..letters {
        push_letters(&mut text, b'1', count)?;
        text.extend_from_slice(b":1\n")?;
        push_letters(&mut text, b'2', count)?;
        text.extend_from_slice(b":1\n")?;
    }
    push_letters(&mut text, b'1', letters)?;
    text.extend_from_slice(b":1\nend\n")?;
    Ok(text)
}

/// An element of 39 letters is the longest.
#[test]
fn long_elements(rt: HostRuntime) -> Result<(), Fail> {
    for (letters, status, written) in [(39, CheckStatus::Yes, "yes\n"), (40, NO_TOP, "no 2\n")] {
        let text = dihedral(rt.alloc(), letters)?;
        assert_end(&rt, rt.alloc(), &[], trial_of(&text), status, written)?;
    }
    Ok(())
}

/// The words that a check is given, which reads and writes fail, and what comes of it.
type Start = (
    &'static [&'static str],
    &'static [u64],
    &'static [u64],
    CheckStatus,
    &'static str,
);

const STARTS: &[Start] = &[
    (&[], &[], &[], CheckStatus::Yes, "yes\n"),
    (
        &["coxcheck", "x"],
        &[1],
        &[],
        CheckStatus::Usage,
        "usage: coxcheck\n",
    ),
    (
        &["coxcheck", "", "x"],
        &[],
        &[3],
        CheckStatus::WriteFault,
        "usage: cox",
    ),
    (&["coxcheck"], &[1], &[], CheckStatus::ReadFault, ""),
    (&["coxcheck"], &[7], &[], CheckStatus::ReadFault, ""),
    (&["coxcheck"], &[], &[1], CheckStatus::WriteFault, ""),
];

#[test]
fn starts(rt: HostRuntime) -> Result<(), Fail> {
    let text = text_of(rt.alloc(), WHOLE)?;
    for (words, reads, writes, status, written) in STARTS {
        let trial = Trial {
            read: 7,
            write: 5,
            failing_reads: reads,
            failing_writes: writes,
            room: 20,
            ..Trial::plain(&[], &text)
        };
        assert_end(&rt, rt.alloc(), words, trial, *status, written)?;
    }
    Ok(())
}
