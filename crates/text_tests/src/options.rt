//! Arguments, and the options that they give.
use cox_doubles::CommandLine;
use cox_options::{DEFAULT_WORKERS, MAX_CONTEXT, MAX_ROOTS, OptionFault, read};
use cox_outside::arguments_of;
use std::alloc::Global;
use std::test::Fail;

/// The greatest number of members, of small roots and of a coefficient, and the number of workers.
type Numbers = (u32, u32, i64, u32);

const DEFAULT: Numbers = (MAX_CONTEXT, MAX_ROOTS, i64::MAX, DEFAULT_WORKERS);

const OF_23: Numbers = (23, MAX_ROOTS, i64::MAX, DEFAULT_WORKERS);

/// Arguments, and the numbers that they give, if they give options.
const CASES: &[(&[&str], Option<Numbers>)] = &[
    (&[], Some(DEFAULT)),
    (&["coxeter"], Some(DEFAULT)),
    (&["coxeter", "--"], Some(DEFAULT)),
    (&["coxeter", "--context", "23"], Some(OF_23)),
    (&["coxeter", "--context=23"], Some(OF_23)),
    (&["coxeter", "--context", "+23"], Some(OF_23)),
    (&["coxeter", "--context", "0023"], Some(OF_23)),
    (&["coxeter", "--context", "1048576"], Some(DEFAULT)),
    (&["coxeter", "--context", "0"], None),
    (&["coxeter", "--context", "1048577"], None),
    (&["coxeter", "--context", "18446744073709551617"], None),
    (&["coxeter", "--context", "x"], None),
    (&["coxeter", "--context", ""], None),
    (&["coxeter", "--context="], None),
    (&["coxeter", "--context", "-1"], None),
    (&["coxeter", "--context"], None),
    (&["coxeter", "--context", "23", "--context", "23"], None),
    (&["coxeter", "--context", "23", "24"], None),
    (&["coxeter", "--contexts", "23"], None),
    (&["coxeter", "--con", "23"], None),
    (&["coxeter", "--context23"], None),
    (&["coxeter", "-c", "23"], None),
    (&["coxeter", "--help"], None),
    (&["coxeter", "-h"], None),
    (&["coxeter", "--version"], None),
    (&["coxeter", "-V"], None),
    (&["coxeter", "help"], None),
    (&["coxeter", "script"], None),
    (&["coxeter", "--roots", "4096"], Some(DEFAULT)),
    (&["coxeter", "--roots", "0"], None),
    (&["coxeter", "--roots", "4097"], None),
    (&["coxeter", "--roots", "--context", "23"], None),
    (&["coxeter", "--context", "23", "--roots"], None),
    (&["coxeter", "--coef", "9223372036854775807"], Some(DEFAULT)),
    (&["coxeter", "--coef", "0"], None),
    (&["coxeter", "--coef", "9223372036854775808"], None),
    (&["coxeter", "--workers", "1"], Some(DEFAULT)),
    (&["coxeter", "--workers", "0"], None),
    (&["coxeter", "--workers", "17"], None),
    (
        &[
            "coxeter",
            "--roots=2",
            "--workers=16",
            "--coef=3000000000",
            "--context=1",
        ],
        Some((1, 2, 3_000_000_000, 16)),
    ),
];

/// The numbers that arguments give, if they give options.
fn numbers(alloc: Global, words: &[&str]) -> Result<Option<Numbers>, OptionFault> {
    match read(alloc, words) {
        Ok(options) => Ok(Some((
            options.context(),
            options.roots(),
            options.coef(),
            options.workers(),
        ))),
        Err(OptionFault::Usage) => Ok(None),
        Err(OptionFault::NoMemory) => Err(OptionFault::NoMemory),
    }
}

#[test]
fn reads_words(rt: HostRuntime) -> Result<(), Fail> {
    for (words, wanted) in CASES {
        assert_eq!(rt; numbers(rt.alloc(), words)?, *wanted, "at {words:?}");
    }
    Ok(())
}

/// What a program was called by, which is no text, and twelve words.
const WORDS: [&[u8]; 13] = [
    b"\xff", b"1", b"2", b"3", b"4", b"5", b"6", b"7", b"8", b"9", b"10", b"11", b"",
];

#[test]
fn collects_each_word(rt: HostRuntime) -> Result<(), Fail> {
    for count in 0..14 {
        let found = arguments_of(&CommandLine(&WORDS[..count]), rt.alloc(), "coxeter")?;
        let found = found.ok_or("these are texts")?;
        assert_eq!(rt; found.len(), count.max(1));
        let mut words = found.iter().map(|text| text.as_bytes());
        assert!(rt; words.next() == Some(b"coxeter".as_slice()));
        assert!(rt;
            words
                .zip(WORDS.iter().skip(1))
                .all(|(text, word)| text == *word)
        );
    }
    Ok(())
}
