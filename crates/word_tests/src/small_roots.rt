//! The number of small roots, against published values, and a product of long words.
ghost use Rattle.std.specs.Prelude.{IfOk};
ghost use Rattle.cox_base.specs.Matrix.{IsWord};

use cox_base::{Coxeter, MAX_LETTERS, Word, read_word};
use cox_minroots::{MAX_SMALL_ROOTS, RootTable};
use std::alloc::Global;
use std::process::Abort;
use std::test::Fail;

/// How many small roots a type has.
fn count(alloc: Global, letter: u8, n: u32) -> Result<u32, Fail> {
    let table = RootTable::build(alloc, &Coxeter::named(letter, n)?, MAX_SMALL_ROOTS)?;
    Ok(table.len())
}

/// In a finite group each positive root is small (Humphreys 2.10); of affine type A 8 there are 72 (Brink and Howlett).
#[test]
fn counts_small_roots(rt: HostRuntime) -> Result<(), Fail> {
    let cases = [
        (b'A', 9, 45),
        (b'B', 5, 25),
        (b'D', 6, 30),
        (b'E', 6, 36),
        (b'E', 7, 63),
        (b'E', 8, 120),
        (b'F', 4, 24),
        (b'G', 2, 6),
        (b'a', 8, 72),
    ];
    for (letter, n, roots) in cases {
        assert!(rt; count(rt.alloc(), letter, n)? == roots, "{letter} {n}");
    }
    Ok(())
}

/// So many letters of the word that repeats these three letters without end.
fn repeated(letters: &[u8; 3], count: usize) -> Result<Word, Fail>
    ensures { IfOk result (λ w. IsWord 3 w.items) }
{
    let mut text = [b'1'; MAX_LETTERS];
    for k in 0..MAX_LETTERS {
        text[k] = letters[k % 3];
    }
    Ok(read_word(&text[..count.min(MAX_LETTERS)], 3)?)
}

/// In the free product of three groups of order 2 the reduced words are those with no letter twice in a row, and no two of them name one
/// element. Along such words heights pass 64 bits. These are the first 200 letters of one, and the inverse of its letters 146 to 200.
#[test]
fn products_that_overflow(rt: HostRuntime) -> Result<(), Fail> {
    let table = RootTable::build(rt.alloc(), &Coxeter::of_labels(3, &[0, 0, 0])?, 3)?;
    cancels(&rt, &table, &repeated(b"123", 200)?, &repeated(b"213", 55)?);
    Ok(())
}

/// The product has 145 letters.
fn cancels(rt: &impl Abort, table: &RootTable, word: &Word, end: &Word)
    requires word { IsWord table.now.rank word.now.items }
    requires end { IsWord table.now.rank end.now.items }
{
    assert!(rt; word.len() + end.len() <= MAX_LETTERS);
    assert!(rt; table.product(word, end).as_slice() == &word.as_slice()[..word.len().min(145)]);
}
