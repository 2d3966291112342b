//! Symmetries of known Coxeter graphs.
use cox_base::{Coxeter, MAX_LABELS};
use cox_symmetry::{MAX_SYMMETRIES, symmetries};
use std::test::Fail;

/// How many symmetries a type has.
fn count(letter: u8, n: u32) -> Result<usize, Fail> {
    Ok(symmetries(&Coxeter::named(letter, n)?).len())
}

/// By the diagrams of Humphreys 2.4 and 2.5: how many there are.
#[test]
fn counts(rt: HostRuntime) -> Result<(), Fail> {
    let table: [(u8, u32, usize); 10] = [
        (b'A', 1, 1),
        (b'A', 16, 2),
        (b'B', 2, 2),
        (b'B', 3, 1),
        (b'D', 4, 6),
        (b'D', 16, 2),
        (b'E', 6, 2),
        (b'E', 8, 1),
        (b'F', 4, 2),
        (b'a', 15, 32),
    ];
    for (letter, n, wanted) in table {
        assert!(rt; count(letter, n)? == wanted, "at {letter} {n}");
    }
    Ok(())
}

/// All 16! permutations of letters that commute are symmetries.
#[test]
fn too_many(rt: HostRuntime) -> Result<(), Fail> {
    let list = symmetries(&Coxeter::of_labels(16, &[2; MAX_LABELS])?);
    assert!(rt; list.len() == MAX_SYMMETRIES);
    Ok(())
}
