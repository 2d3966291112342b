//! The recursion at one extremal member: the polynomials that are added up.
ghost use Rattle.std.specs.Prelude.{◌≡◌, ℕ, ◌+◌, ◌*◌, ◌^◌, ◌<◌, ◌≤◌, ◌↔◌, length, pos, unsigned_abs, false, IsTrue, IfSome, IsSome, Some};
ghost use Rattle.cox_base.specs.Admissible.{IsAdmissible};
ghost use Rattle.cox_base.specs.IntegerMatrix.{integer_matrix};
ghost use Rattle.cox_base.specs.Bruhat.{IsBelow};
ghost use Rattle.cox_base.specs.ShortLex.{normal_form};
ghost use Rattle.cox_base.specs.SideDescents.{times_letter};
ghost use Rattle.cox_poly.specs.Coefficients.{Coefficients, plus};
ghost use Rattle.cox_poly.specs.Products.{times_q_power};
ghost use Rattle.cox_poly.specs.Multiples.{minus, scaled};
ghost use Rattle.cox_poly.specs.Polynomial.{coefficient};
ghost use Rattle.cox_hecke.specs.Row.{IsKazhdanLusztig};
ghost use Rattle.cox_context.specs.Closed.{IsClosed};
ghost use Rattle.cox_context.specs.Numbers.{word_at};
ghost use Rattle.cox_context.specs.Numbering.{IsNumberOf};
ghost use Rattle.cox_row.specs.Extremal.{IsExtremal};
ghost use Rattle.cox_row.specs.RowOf.{IsRowAt};
ghost use Rattle.cox_klstep.specs.StepOf.{IsRowStep, AreNeeded};
ghost use Rattle.cox_klstep.specs.CorrectionSums.{GivesAt, numbered_sum};
ghost use Rattle.cox_row_builder.specs.Counted.{counted};
ghost use Rattle.cox_klstep.specs.SourceOf.{IsSource, source_cost};
ghost use Rattle.cox_klstep.specs.FoundTogether.{IsFoundFor};

use crate::step::{Correction, Step};
use cox_context::Context;
use cox_poly::{Acc, Poly, PolyView};
use cox_row::{Row, RowIndex, indexed_polynomial, polynomial};
use cox_row_builder::Steps;

/// What the polynomials of the row of a member come from: a step with the rows that it is made from.
#[derive(Clone, Copy)]
pub struct Source<'a> {
    pub(crate) step: &'a Step,
    /// The row of the shorter element.
    pub(crate) lower: &'a Row,
    /// The index of that row.
    pub(crate) index: &'a RowIndex,
    /// The rows of the corrections, in their order.
    pub(crate) needed: &'a [&'a Row],
}

/// What is added to the sums for an x: factor q^shift P(x,u), for the member u with this number.
#[derive(Clone, Copy)]
struct Term {
    number: u32,
    factor: i64,
    shift: u32,
}

/// Adds a term to the sums, with the polynomial that was found for x in the row of its member u, and says whether x <= u.
fn add(
    ctx: &Context,
    found: Option<PolyView<'_>>,
    term: &Term,
    x: u32,
    sums: &mut Acc,
    steps: &mut Steps,
) -> bool
    requires admissible { IsAdmissible (integer_matrix ctx.now.matrix) }
    requires closed { IsClosed (integer_matrix ctx.now.matrix) ctx.now.members }
    requires u { term.now.number < length ctx.now.members }
    requires x { x < length ctx.now.members }
    requires value { IfSome found (λ p. IsKazhdanLusztig (integer_matrix ctx.now.matrix) (word_at ctx.now.members x)
        (word_at ctx.now.members term.now.number) (coefficient p)) }
    requires exactly { IsSome found ↔ IsBelow (integer_matrix ctx.now.matrix) (word_at ctx.now.members x)
        (word_at ctx.now.members term.now.number) }
    requires shift { term.now.shift ≤ 127 }
    requires factor { unsigned_abs term.now.factor ≤ 2 ^ 31 }
    requires room { (k : ℕ) → unsigned_abs (coefficient sums.old k) ≤ 2 ^ 125 }
    ensures below { IsTrue result ↔ IsBelow (integer_matrix ctx.now.matrix) (word_at ctx.now.members x)
        (word_at ctx.now.members term.now.number) }
    ensures sum { (f : Coefficients) → IsKazhdanLusztig (integer_matrix ctx.now.matrix) (word_at ctx.now.members x)
        (word_at ctx.now.members term.now.number) f
        → (k : ℕ) → coefficient sums.new k ≡ plus (coefficient sums.old) (scaled term.now.factor (times_q_power term.now.shift f)) k }
    ensures size { (n : ℕ) → ((k : ℕ) → unsigned_abs (coefficient sums.old k) ≤ n * 2 ^ 94)
        → (k : ℕ) → unsigned_abs (coefficient sums.new k) ≤ (n + 1) * 2 ^ 94 }
    ensures one { IsTrue result → steps.new ≡ counted steps.old 1 }
    ensures none { result ≡ false → steps.new ≡ steps.old }
    ensures kept { steps.old ≤ steps.new }
{
    match found {
        Some(p) => {
            add_known(ctx, &p, term, x, sums, steps);
            true
        }
        None => false,
    }
}

/// Adds a term to the sums, where the polynomial is P(x,u) for its member u, and counts that.
fn add_known(
    ctx: &Context,
    p: &PolyView<'_>,
    term: &Term,
    x: u32,
    sums: &mut Acc,
    steps: &mut Steps,
)
    requires admissible { IsAdmissible (integer_matrix ctx.now.matrix) }
    requires closed { IsClosed (integer_matrix ctx.now.matrix) ctx.now.members }
    requires u { term.now.number < length ctx.now.members }
    requires value { IsKazhdanLusztig (integer_matrix ctx.now.matrix) (word_at ctx.now.members x) (word_at ctx.now.members term.now.number)
        (coefficient p.now) }
    requires shift { term.now.shift ≤ 127 }
    requires factor { unsigned_abs term.now.factor ≤ 2 ^ 31 }
    requires room { (k : ℕ) → unsigned_abs (coefficient sums.old k) ≤ 2 ^ 125 }
    ensures sum { (f : Coefficients) → IsKazhdanLusztig (integer_matrix ctx.now.matrix) (word_at ctx.now.members x)
        (word_at ctx.now.members term.now.number) f
        → (k : ℕ) → coefficient sums.new k ≡ plus (coefficient sums.old) (scaled term.now.factor (times_q_power term.now.shift f)) k }
    ensures size { (n : ℕ) → ((k : ℕ) → unsigned_abs (coefficient sums.old k) ≤ n * 2 ^ 94)
        → (k : ℕ) → unsigned_abs (coefficient sums.new k) ≤ (n + 1) * 2 ^ 94 }
    ensures one { steps.new ≡ counted steps.old 1 }
    ensures kept { steps.old ≤ steps.new }
{
    let _degree = p.degree();
    sums.add_scaled(p, term.factor, term.shift);
    steps.take();
}

/// The sums become those of P(x,w), for an extremal x <= w from which the step leads to the member `shorter`.
// fast: inlined, since a row that one thread makes then takes a twentieth fewer instructions
#[inline(always)]
fn sum_up(ctx: &Context, source: &Source, x: u32, shorter: u32, sums: &mut Acc, steps: &mut Steps)
    requires source { IsSource ctx.now source.now.step.now.member source.now }
    requires x { x < length ctx.now.members }
    requires extremal { IsExtremal (integer_matrix ctx.now.matrix) (word_at ctx.now.members source.now.step.now.member)
        (word_at ctx.now.members x) }
    requires below { IsBelow (integer_matrix ctx.now.matrix) (word_at ctx.now.members x)
        (word_at ctx.now.members source.now.step.now.member) }
    requires shorter { IsNumberOf ctx.now.members (normal_form (integer_matrix ctx.now.matrix)
        (times_letter source.now.step.now.side source.now.step.now.letter (word_at ctx.now.members x))) (Some shorter) }
    requires clear { (k : ℕ) → coefficient sums.old k ≡ pos 0 }
    ensures value { IsKazhdanLusztig (integer_matrix ctx.now.matrix) (word_at ctx.now.members x)
        (word_at ctx.now.members source.now.step.now.member) (coefficient sums.new) }
    ensures steps { steps.new ≤ steps.old + source_cost source.now }
    ensures some { counted steps.old 1 ≤ steps.new }
    ensures kept { steps.old ≤ steps.new }
{
    let _len = ctx.len();
    let step = source.step;
    let at_shorter = Term {
        number: step.lower,
        factor: 1,
        shift: 0,
    };
    let found = indexed_polynomial(ctx, source.lower, source.index, step.lower, shorter);
    add(ctx, found, &at_shorter, shorter, sums, steps);
    let at_x = Term {
        number: step.lower,
        factor: 1,
        shift: 1,
    };
    let found = indexed_polynomial(ctx, source.lower, source.index, step.lower, x);
    add(ctx, found, &at_x, x, sums, steps);
    correct(ctx, step, source.needed, x, sums, steps);
}

/// Takes the corrections off the sums.
fn correct(ctx: &Context, step: &Step, needed: &[&Row], x: u32, sums: &mut Acc, steps: &mut Steps)
    requires admissible { IsAdmissible (integer_matrix ctx.now.matrix) }
    requires closed { IsClosed (integer_matrix ctx.now.matrix) ctx.now.members }
    requires step { IsRowStep ctx.now step.now }
    requires needed { AreNeeded ctx.now step.now.corrections.items needed.now }
    requires x { x < length ctx.now.members }
    requires room { (k : ℕ) → unsigned_abs (coefficient sums.old k) ≤ 2 * 2 ^ 94 }
    ensures sum { (P : ℕ → Coefficients) → GivesAt (integer_matrix ctx.now.matrix) ctx.now.members (word_at ctx.now.members x) P
        → (k : ℕ) → coefficient sums.new k ≡ minus (coefficient sums.old) (numbered_sum P step.now.corrections.items) k }
    ensures steps { steps.new ≤ steps.old + length step.now.corrections.items }
    ensures kept { steps.old ≤ steps.new }
{
    for (k, correction) in step.corrections.iter().enumerate() {
        // fast: x is not below a member with a smaller number, so nothing is looked up there
        if x <= correction.number {
            take_off(ctx, needed[k], correction, x, sums, steps);
        }
    }
}

/// Takes one correction off the sums.
fn take_off(
    ctx: &Context,
    row: &Row,
    correction: &Correction,
    x: u32,
    sums: &mut Acc,
    steps: &mut Steps,
)
    requires admissible { IsAdmissible (integer_matrix ctx.now.matrix) }
    requires closed { IsClosed (integer_matrix ctx.now.matrix) ctx.now.members }
    requires u { correction.now.number < length ctx.now.members }
    requires x { x < length ctx.now.members }
    requires row { IsRowAt ctx.now correction.now.number row.now }
    requires shift { correction.now.shift ≤ 127 }
    requires room { (k : ℕ) → unsigned_abs (coefficient sums.old k) ≤ 2 ^ 125 }
    ensures sum { (f : Coefficients) → IsKazhdanLusztig (integer_matrix ctx.now.matrix) (word_at ctx.now.members x)
        (word_at ctx.now.members correction.now.number) f
        → (k : ℕ) → coefficient sums.new k
        ≡ minus (coefficient sums.old) (scaled correction.now.factor (times_q_power correction.now.shift f)) k }
    ensures size { (n : ℕ) → ((k : ℕ) → unsigned_abs (coefficient sums.old k) ≤ n * 2 ^ 94)
        → (k : ℕ) → unsigned_abs (coefficient sums.new k) ≤ (n + 1) * 2 ^ 94 }
    ensures steps { steps.new ≤ steps.old + 1 }
    ensures kept { steps.old ≤ steps.new }
{
    let term = Term {
        number: correction.number,
        factor: -i64::from(correction.factor),
        shift: correction.shift,
    };
    let found = polynomial(ctx, row, correction.number, x);
    add(ctx, found, &term, x, sums, steps);
}

/// The sums become those of P(x,w), for an extremal x <= w from which the step leads to the member `shorter`. Where the polynomial was
/// found before, that counts as one polynomial added up.
// fast: inlined, so that the loop over the extremal members is one piece of machine code
#[inline(always)]
pub(crate) fn put_polynomial(
    ctx: &Context,
    i: u32,
    source: &Source,
    x: u32,
    shorter: u32,
    found: Option<&Poly>,
    sums: &mut Acc,
    steps: &mut Steps,
)
    requires i { i < length ctx.now.members }
    requires source { IsSource ctx.now i source.now }
    requires x { x < length ctx.now.members }
    requires found { IfSome found (λ p. IsFoundFor ctx.now i x p.now) }
    requires extremal { IsExtremal (integer_matrix ctx.now.matrix) (word_at ctx.now.members i) (word_at ctx.now.members x) }
    requires below { IsBelow (integer_matrix ctx.now.matrix) (word_at ctx.now.members x) (word_at ctx.now.members i) }
    requires shorter { IsNumberOf ctx.now.members (normal_form (integer_matrix ctx.now.matrix)
        (times_letter source.now.step.now.side source.now.step.now.letter (word_at ctx.now.members x))) (Some shorter) }
    ensures value { IsKazhdanLusztig (integer_matrix ctx.now.matrix) (word_at ctx.now.members x) (word_at ctx.now.members i)
        (coefficient sums.new) }
    ensures steps { steps.new ≤ steps.old + source_cost source.now }
    ensures some { counted steps.old 1 ≤ steps.new }
    ensures kept { steps.old ≤ steps.new }
{
    sums.clear();
    match found {
        Some(polynomial) => put_found(ctx, i, polynomial, x, sums, steps),
        None => sum_up(ctx, source, x, shorter, sums, steps),
    }
}

/// The sums become those of a polynomial that was found before. It counts as one polynomial added up.
fn put_found(ctx: &Context, i: u32, polynomial: &Poly, x: u32, sums: &mut Acc, steps: &mut Steps)
    requires i { i < length ctx.now.members }
    requires x { x < length ctx.now.members }
    requires found { IsFoundFor ctx.now i x polynomial.now }
    requires clear { (k : ℕ) → coefficient sums.old k ≡ pos 0 }
    ensures value { IsKazhdanLusztig (integer_matrix ctx.now.matrix) (word_at ctx.now.members x) (word_at ctx.now.members i)
        (coefficient sums.new) }
    ensures one { steps.new ≡ counted steps.old 1 }
    ensures kept { steps.old ≤ steps.new }
{
    let _len = ctx.len();
    let term = Term {
        number: i,
        factor: 1,
        shift: 0,
    };
    add_known(ctx, &polynomial.view(), &term, x, sums, steps);
}
