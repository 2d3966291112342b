//! The text of polynomials, by hand, as it is written and as it is read.
use cox_poly::Poly;
use cox_polyread::{TextFault, read_polynomial};
use std::alloc::Global;
use std::process::Abort;
use std::test::Fail;

/// The text of a polynomial.
fn text_of(alloc: Global, p: &Poly) -> Result<String, Fail> {
    let mut out = Vec::new(alloc);
    p.put_text(&mut out)?;
    Ok(String::from_utf8(out).ok().ok_or("not UTF-8")?)
}

const WRITTEN: &[(&[i64], &str)] = &[
    (&[1, 2, 1], "1+2q+q^2"),
    (&[-1, 1], "-1+q"),
    (&[0, 1], "q"),
    (&[0, 0, 0, -2], "-2q^3"),
    (&[], "0"),
    (&[0, 0], "0"),
    (&[1, -1, 1, -1, 0], "1-q+q^2-q^3"),
    (&[7, 0, -1, 0, 0, 0, 0, 0, 0, 0, 12], "7-q^2+12q^10"),
    (
        &[i64::MIN, i64::MAX],
        "-9223372036854775808+9223372036854775807q",
    ),
];

#[test]
fn texts_are_written(rt: HostRuntime) -> Result<(), Fail> {
    for (coefficients, text) in WRITTEN {
        let p = Poly::of(rt.alloc(), coefficients)?;
        assert!(rt; text_of(rt.alloc(), &p)?.as_str() == *text, "{text}");
    }
    Ok(())
}

const FOREIGN: Option<TextFault> = Some(TextFault::NotAPolynomial);

const LARGE: Option<TextFault> = Some(TextFault::TooLarge);

/// What is wrong with a text as that of a polynomial of degree at most 39.
const READ: &[(&str, Option<TextFault>)] = &[
    ("0", None),
    ("1", None),
    ("-q", None),
    ("2q", None),
    ("-1-q-q^2", None),
    ("1-2q^2+q^10", None),
    ("-9223372036854775808+9223372036854775807q^39", None),
    ("", FOREIGN),
    ("1q", FOREIGN),
    ("q^1", FOREIGN),
    ("q^0", FOREIGN),
    ("-0", FOREIGN),
    ("+1", FOREIGN),
    ("0+q", FOREIGN),
    ("q+1", FOREIGN),
    ("01", FOREIGN),
    ("q^02", FOREIGN),
    ("1+0q", FOREIGN),
    (" 1", FOREIGN),
    ("1+ q", FOREIGN),
    ("1+q+q", FOREIGN),
    ("1+q^3+q^2", FOREIGN),
    ("1+-q", FOREIGN),
    ("1-", FOREIGN),
    ("q^", FOREIGN),
    ("q^-1", FOREIGN),
    ("qq", FOREIGN),
    ("1*q", FOREIGN),
    ("Q", FOREIGN),
    ("1+q\n", FOREIGN),
    ("1+q^4000000000+", FOREIGN),
    (
        "q^1000000000000000000000000000000000000001+q^1000000000000000000000000000000000000000",
        FOREIGN,
    ),
    ("9223372036854775808", LARGE),
    ("-9223372036854775809", LARGE),
    ("18446744073709551616", LARGE),
    ("1+q^40", LARGE),
    ("1+q^18446744073709551616", LARGE),
    (
        "q^1000000000000000000000000000000000000000+q^1000000000000000000000000000000000000001",
        LARGE,
    ),
];

/// What is wrong with a text as that of a polynomial of degree at most 39. One that is read is written again as it was.
fn fault_of(rt: &impl Abort, alloc: Global, text: &str) -> Result<Option<TextFault>, Fail> {
    match read_polynomial(alloc, text.as_bytes(), 39) {
        Ok(p) => {
            assert!(rt; text_of(alloc, &p)?.as_str() == text, "{text}");
            Ok(None)
        }
        Err(fault) => Ok(Some(fault)),
    }
}

#[test]
fn texts_are_read(rt: HostRuntime) -> Result<(), Fail> {
    for (text, fault) in READ {
        assert!(rt; fault_of(&rt, rt.alloc(), text)? == *fault, "{text}");
    }
    Ok(())
}
