//! Coxeter matrices: values from the published diagrams and by hand.
use cox_base::Coxeter;
use std::alloc::Global;
use std::test::Fail;

/// The labels of a type above the diagonal, row by row.
fn labels_of(alloc: Global, letter: u8, n: u32) -> Result<Vec<u32>, Fail> {
    let g = Coxeter::named(letter, n)?;
    let mut labels = Vec::new(alloc);
    let rank = g.rank() as u8;
    for s in 1..rank {
        for t in s + 1..rank + 1 {
            labels.push(g.label(s, t))?;
        }
    }
    Ok(labels)
}

/// The entries of the integer matrix of a type, row by row.
fn entries_of(alloc: Global, letter: u8, n: u32) -> Result<Vec<i64>, Fail> {
    let g = Coxeter::named(letter, n)?;
    let mut entries = Vec::new(alloc);
    let rank = g.rank() as u8;
    for s in 1..rank + 1 {
        for t in 1..rank + 1 {
            entries.push(g.entry(s, t))?;
        }
    }
    Ok(entries)
}

/// The diagrams of Humphreys 2.4 and 2.5, with Bourbaki's numbers.
const LABELS: &[(u8, u32, &[u32])] = &[
    (b'A', 1, &[]),
    (b'B', 3, &[3, 2, 4]),
    (b'F', 4, &[3, 2, 2, 4, 2, 3]),
    (b'G', 2, &[6]),
    (b'a', 1, &[0]),
    (b'a', 3, &[3, 2, 3, 3, 2, 3]),
    (b'D', 4, &[3, 2, 2, 3, 3, 2]),
    (b'E', 6, &[2, 3, 2, 2, 2, 2, 3, 2, 2, 3, 2, 2, 3, 2, 3]),
];

/// By hand: a(s,t) and a(t,s) for s < t are -1 and -1 at 3, -1 and -2 at 4, -1 and -3 at 6, -2 and -2 at infinity.
const ENTRIES: &[(u8, u32, &[i64])] = &[
    (b'B', 3, &[2, -1, 0, -1, 2, -1, 0, -2, 2]),
    (b'G', 2, &[2, -1, -3, 2]),
    (b'a', 1, &[2, -2, -2, 2]),
    (b'a', 2, &[2, -1, -1, -1, 2, -1, -1, -1, 2]),
];

#[test]
fn named_types(rt: HostRuntime) -> Result<(), Fail> {
    for (letter, n, labels) in LABELS {
        let found = labels_of(rt.alloc(), *letter, *n)?;
        assert!(rt; found.as_slice() == *labels, "{letter} {n}");
    }
    for (letter, n, entries) in ENTRIES {
        let found = entries_of(rt.alloc(), *letter, *n)?;
        assert!(rt; found.as_slice() == *entries, "{letter} {n}");
    }
    Ok(())
}
