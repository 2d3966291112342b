//! The texts of faults.
use cox_base::{Label, NotAType, WordFault};
use cox_command::parse;
use cox_minroots::RootFault;
use cox_options::OptionFault;
use cox_outside::WriteFailed;
use cox_poly::PolyFault;
use cox_polyread::TextFault;
use cox_rpoly::RFault;
use std::alloc::{AllocError, Global};
use std::fmt::Display;
use std::process::Abort;
use std::test::Fail;

/// Asserts that this is the text of a fault.
fn assert_text<F: Display>(
    rt: &impl Abort,
    alloc: Global,
    fault: &F,
    wanted: &str,
) -> Result<(), AllocError> {
    let text = format!(in alloc; "{fault}")?;
    assert_eq!(rt; text.as_str(), wanted);
    Ok(())
}

#[test]
fn texts_of_faults(rt: HostRuntime) -> Result<(), Fail> {
    let alloc = rt.alloc();
    let label = Label { place: 3, value: 5 };
    assert_text(&rt, alloc, &label, "label 3 is 5, and not 0, 2, 3, 4 or 6")?;
    assert_text(&rt, alloc, &NotAType, "no such type")?;
    assert_text(&rt, alloc, &WordFault::Long(256), "a word of 256 letters")?;
    assert_text(
        &rt,
        alloc,
        &WordFault::Letter(4),
        "the piece at 4 is no letter",
    )?;
    let many = RootFault::TooMany { seen: 11 };
    assert_text(&rt, alloc, &many, "11 small roots, and perhaps more")?;
    assert_text(
        &rt,
        alloc,
        &OptionFault::Usage,
        "the arguments give no options",
    )?;
    let unwritten = "a write failed before all bytes were written";
    assert_text(&rt, alloc, &WriteFailed, unwritten)?;
    Ok(())
}

#[test]
fn texts_of_polynomials(rt: HostRuntime) -> Result<(), Fail> {
    let alloc = rt.alloc();
    let large = PolyFault::TooBig {
        degree: 2,
        value: -9,
    };
    let above = "the coefficient -9 at degree 2 is above the limit";
    assert_text(&rt, alloc, &large, above)?;
    let foreign = TextFault::NotAPolynomial;
    assert_text(&rt, alloc, &foreign, "this is no polynomial")?;
    let beyond = "a coefficient or a degree is too large";
    assert_text(&rt, alloc, &TextFault::TooLarge, beyond)?;
    let deep = "the lengths differ by 40, which is more than 39";
    assert_text(&rt, alloc, &RFault::Deep(40), deep)?;
    Ok(())
}

#[test]
fn texts_of_no_memory(rt: HostRuntime) -> Result<(), Fail> {
    let (alloc, wanted) = (rt.alloc(), "out of memory");
    assert_text(&rt, alloc, &PolyFault::NoMemory, wanted)?;
    assert_text(&rt, alloc, &TextFault::NoMemory, wanted)?;
    assert_text(&rt, alloc, &RFault::NoMemory, wanted)?;
    assert_text(&rt, alloc, &RootFault::NoMemory, wanted)?;
    assert_text(&rt, alloc, &OptionFault::NoMemory, wanted)?;
    Ok(())
}

#[test]
fn texts_of_refusals(rt: HostRuntime) -> Result<(), Fail> {
    match parse(b"foo", None) {
        Ok(_) => panic!(rt; "`foo` is no command"),
        Err(fault) => assert_text(&rt, rt.alloc(), &fault, "error 10")?,
    }
    Ok(())
}
