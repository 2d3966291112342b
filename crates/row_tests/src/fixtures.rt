//! Groups with all their elements, and the rows of these.
ghost use Rattle.std.specs.Prelude.{◌≡◌, length, IfOk};
ghost use Rattle.cox_base.specs.Matrix.{IsWord};

use cox_base::{Coxeter, MAX_LETTERS, Word, read_word};
use cox_context::{Context, MAX_MEMBERS};
use cox_minroots::{MAX_SMALL_ROOTS, RootTable};
use cox_rows::Rows;
use std::alloc::Global;
use std::process::Abort;
use std::test::Fail;

/// The table of small roots of a group.
pub fn table(alloc: Global, g: &Coxeter) -> Result<RootTable, Fail>
    ensures { IfOk result (λ t. t ≡ g.now) }
{
    Ok(RootTable::build(alloc, g, MAX_SMALL_ROOTS)?)
}

/// All elements of a finite group, which are so many.
pub fn elements(
    rt: &impl Abort,
    alloc: Global,
    letter: u8,
    n: u32,
    order: u32,
) -> Result<Context, Fail>
    ensures { IfOk result (λ context. length context.members ≡ order) }
{
    assert!(rt; 1 <= order && order <= MAX_MEMBERS);
    let table = table(alloc, &Coxeter::named(letter, n)?)?;
    let context = Context::of_group(alloc, &table, order)?;
    assert!(rt; context.len() == order, "{letter} {n}");
    Ok(context)
}

/// A context without rows.
pub fn rows_of(alloc: Global, context: Context) -> Result<Rows, Fail>
    ensures { IfOk result (λ rows. rows.elements ≡ context) }
{
    Ok(Rows::new(alloc, context, i64::MAX)?)
}

/// The word that a text names.
pub fn word(rt: &impl Abort, g: &RootTable, text: &[u8]) -> Result<Word, Fail>
    ensures { IfOk result (λ w. IsWord g.now.rank w.items) }
{
    assert!(rt; text.len() <= MAX_LETTERS);
    Ok(read_word(text, g.group().rank())?)
}
