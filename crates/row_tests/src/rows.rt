//! Rows that are settled, rows that are read off those of images, a context that grows, and a long element.
//!
//! A test makes what it needs, and a function that gets it by reference asserts: where a context is owned, each assertion is slow to prove.
ghost use Rattle.std.specs.Prelude.{◌≡◌, length};

use crate::fixtures::{elements, rows_of, table, word};
use cox_base::Coxeter;
use cox_context::Context;
use cox_minroots::RootTable;
use cox_rows::Rows;
use std::process::Abort;
use std::test::Fail;

/// The contracts only forbid to say so wrongly.
#[test]
fn says_what_is_settled_and_what_has_its_needs(rt: HostRuntime) -> Result<(), Fail> {
    let context = elements(&rt, rt.alloc(), b'A', 2, 6)?;
    let mut rows = rows_of(rt.alloc(), context)?;
    settles_the_longest_element(&rt, &mut rows)
}

/// The member 5 of A 2 is 121.
fn settles_the_longest_element(rt: &impl Abort, rows: &mut Rows) -> Result<(), Fail>
    requires { length rows.old.elements.members ≡ 6 }
{
    rows.ensure(5)?;
    assert!(rt; rows.is_settled(5));
    rows.ensure_all()?;
    let _row = rows.take(5);
    assert!(rt; !rows.is_settled(4));
    assert!(rt; rows.has_needs(5));
    Ok(())
}

/// Whether the row of a member shares the polynomials of another one.
fn is_view(rows: &Rows, i: u32) -> bool {
    match rows.row(i) {
        Some(row) => row.view().is_some(),
        None => false,
    }
}

/// The first two coefficients of P(x,w), for the members with the numbers x and i, where the row is held.
fn low_part(rows: &Rows, i: u32, x: u32) -> Option<[i64; 2]> {
    if !rows.has(i) || x >= rows.context().len() {
        return None;
    }
    let p = rows.polynomial(i, x)?;
    Some([p.coefficient(0), p.coefficient(1)])
}

#[test]
fn reads_a_row_off_that_of_an_image(rt: HostRuntime) -> Result<(), Fail> {
    let context = elements(&rt, rt.alloc(), b'A', 4, 120)?;
    let mut rows = rows_of(rt.alloc(), context)?;
    reads_3243_off_2132(&rt, &mut rows)
}

/// In A 4 a symmetry takes 2132 to 3243, so P(3,3243) is P(2,2132) = 1 + q.
fn reads_3243_off_2132(rt: &impl Abort, rows: &mut Rows) -> Result<(), Fail>
    requires { length rows.old.elements.members ≡ 120 }
{
    rows.ensure(38)?;
    rows.ensure(46)?;
    assert!(rt; !is_view(rows, 38) && is_view(rows, 46));
    let cases = [
        (38, 2, Some([1, 1])),
        (46, 3, Some([1, 1])),
        (46, 2, Some([1, 0])),
        (46, 1, None),
    ];
    for (i, x, low) in cases {
        assert!(rt; low_part(rows, i, x) == low, "{i} {x}");
    }
    Ok(())
}

#[test]
fn keeps_rows_of_images_in_a_larger_context(rt: HostRuntime) -> Result<(), Fail> {
    let table = table(rt.alloc(), &Coxeter::named(b'A', 3)?)?;
    let context = Context::of_interval(rt.alloc(), &table, &word(&rt, &table, b"121")?, 6)?;
    let mut rows = rows_of(rt.alloc(), context)?;
    keeps_the_row_of_21(&rt, &table, &mut rows)
}

/// The numbers of 12 and its inverse 21 are 3 and 4, up to 121 and in all of A 3.
fn keeps_the_row_of_21(rt: &impl Abort, table: &RootTable, rows: &mut Rows) -> Result<(), Fail>
    requires { table.now ≡ rows.old.elements.matrix }
{
    let longest = word(rt, table, b"121321")?;
    rows.ensure_all()?;
    assert!(rt; rows.context().len() == 6 && !is_view(rows, 3) && is_view(rows, 4));
    rows.extend(table, &longest, 24)?;
    rows.ensure_all()?;
    assert!(rt; rows.context().len() == 24 && !is_view(rows, 3) && is_view(rows, 4));
    Ok(())
}

#[test]
fn begins_a_long_row(rt: HostRuntime) -> Result<(), Fail> {
    let table = table(rt.alloc(), &Coxeter::named(b'a', 1)?)?;
    let text = b"121212121212121212121212121212121212121212121212121212121212";
    let context = Context::of_interval(rt.alloc(), &table, &word(&rt, &table, text)?, 120)?;
    let mut rows = rows_of(rt.alloc(), context)?;
    begins_the_last_row(&rt, &mut rows);
    Ok(())
}

/// In the infinite dihedral group an element of length n needs the rows of one of length n - 1 and of one of length n - 2. A walk that went
/// over these again and again would not come to an end in a lifetime. Where nothing may be added up, no row is begun behind the first one
/// that takes it. A second call begins one more, since each call counts from where it starts. The rest is made afterwards.
fn begins_the_last_row(rt: &impl Abort, rows: &mut Rows) {
    assert!(rt; rows.context().len() == 120);
    assert!(rt; !rows.begin(119, 0) && !rows.has(119) && rows.steps() > 0);
    let before = rows.steps();
    assert!(rt; !rows.begin(119, 0) && rows.steps() > before);
    assert!(rt; rows.begin(119, u64::MAX) && rows.is_settled(119));
}
