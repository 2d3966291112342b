//! The answers from the row of an element: all of it, or one polynomial, or mu.
ghost use Rattle.std.specs.Prelude.{◌≡◌, ◌<◌, List, length, IfSome, IfNone, ℕ};
ghost use Rattle.cox_base.specs.Matrix.{IsWord};
ghost use Rattle.cox_base.specs.Admissible.{IsCoxeterMatrix};
ghost use Rattle.cox_base.specs.IntegerMatrix.{integer_matrix};
ghost use Rattle.cox_base.specs.ShortLex.{normal_form};
ghost use Rattle.cox_base.specs.Bruhat.{IsBelow};
ghost use Rattle.std.specs.Fmt.{signed_decimal};
ghost use Rattle.cox_poly.specs.Polynomial.{coefficient};
ghost use Rattle.cox_poly.specs.Puts.{Puts};
ghost use Rattle.cox_hecke.specs.Row.{IsKazhdanLusztig, IsMu};
ghost use Rattle.cox_context.specs.Numbers.{word_at};
ghost use Rattle.cox_rows.specs.Holding.{HasRow};
ghost use Rattle.cox_replies.specs.InquiryQuestion.{IsRowText, IsEntryText};
ghost use Rattle.cox_replies.specs.Putting.{PutsSome};

use crate::pairs::{put_all_pairs, put_extremal_pairs};
use crate::sums::put_sums;
use cox_base::Word;
use cox_command::{EntryKind, RowKind};
use cox_minroots::RootTable;
use cox_poly::PolyView;
use cox_poly::append::{put_number, put_text};
use cox_print::NoMemory;
use cox_rows::Rows;

/// Puts the answer to a command on w, for the member w with the number i.
pub fn put_row_of(out: &mut Vec<u8>, rows: &Rows, i: u32, kind: RowKind) -> Result<(), NoMemory>
    requires group { IsCoxeterMatrix rows.now.elements.matrix }
    requires member { i < length rows.now.elements.members }
    requires there { HasRow rows.now i }
    ensures { (w : List ℕ) → word_at rows.now.elements.members i ≡ normal_form (integer_matrix rows.now.elements.matrix) w
        → PutsSome result (IsRowText kind (integer_matrix rows.now.elements.matrix) w) out.old.items out.new.items }
{
    match kind {
        RowKind::Klbasis => put_all_pairs(out, rows, i),
        RowKind::Ihbetti => put_sums(out, rows, i),
        RowKind::Extremals => put_extremal_pairs(out, rows, i),
    }
}

/// Puts the answer to a command on y and w, for the member w with the number i.
pub fn put_entry_of(
    out: &mut Vec<u8>,
    rows: &Rows,
    table: &RootTable,
    i: u32,
    kind: EntryKind,
    y: &Word,
) -> Result<(), NoMemory>
    requires group { IsCoxeterMatrix table.now }
    requires member { i < length rows.now.elements.members }
    requires there { HasRow rows.now i }
    requires table { table.now ≡ rows.now.elements.matrix }
    requires word { IsWord table.now.rank y.now.items }
    ensures { (w : List ℕ) → word_at rows.now.elements.members i ≡ normal_form (integer_matrix table.now) w
        → PutsSome result (IsEntryText kind (integer_matrix table.now) y.now.items w) out.old.items out.new.items }
{
    match kind {
        EntryKind::Pol => match polynomial_at(rows, table, i, y) {
            Some(polynomial) => polynomial.put_text(out),
            None => put_text(out, b"0"),
        },
        EntryKind::Mu => put_value(out, mu_at(rows, table, i, y)),
    }
}

/// P(y,w), for the member w with the number i; `None` where y <= w fails.
fn polynomial_at<'a>(rows: &'a Rows, table: &RootTable, i: u32, y: &Word) -> Option<PolyView<'a>>
    requires member { i < length rows.now.elements.members }
    requires there { HasRow rows.now i }
    requires table { table.now ≡ rows.now.elements.matrix }
    requires word { IsWord table.now.rank y.now.items }
    ensures value { IfSome result (λ p. IsKazhdanLusztig (integer_matrix table.now) y.now.items
        (word_at rows.now.elements.members i) (coefficient p)) }
    ensures none { IfNone result (¬ IsBelow (integer_matrix table.now) y.now.items (word_at rows.now.elements.members i)) }
{
    match rows.context().number_of(table, y) {
        Some(x) => rows.polynomial(i, x),
        None => None,
    }
}

/// mu(y,w), for the member w with the number i.
fn mu_at(rows: &Rows, table: &RootTable, i: u32, y: &Word) -> i32
    requires member { i < length rows.now.elements.members }
    requires there { HasRow rows.now i }
    requires table { table.now ≡ rows.now.elements.matrix }
    requires word { IsWord table.now.rank y.now.items }
    ensures { IsMu (integer_matrix table.now) y.now.items (word_at rows.now.elements.members i) result }
{
    match rows.context().number_of(table, y) {
        Some(x) => rows.mu(i, x),
        None => 0,
    }
}

/// Puts a value of mu.
fn put_value(out: &mut Vec<u8>, mu: i32) -> Result<(), NoMemory>
    ensures { Puts result (signed_decimal mu) out.old.items out.new.items }
{
    put_number(out, i128::from(mu))
}
