//! The first line of a certificate, read: a Coxeter matrix.
ghost use Rattle.std.specs.Prelude.{◌≡◌, ◌≢◌, ◌≤◌, ◌<◌, ℕ, List, length, decimal, IfSome, IfNone, MatchOption};
ghost use Rattle.cox_base.specs.Matrix.{CoxeterMatrix};
ghost use Rattle.cox_base.specs.Admissible.{IsCoxeterMatrix};
ghost use Rattle.cox_certtext.specs.Certificate.{matrix_line};
ghost use Rattle.cox_certtext.specs.CertificateParts.{labels_text};
ghost use Rattle.cox_cert.specs.LineReading.{AreDigits};

use crate::parts::{behind, cut, read_decimal};
use arrayvec::ArrayVec;
use cox_base::{Coxeter, MAX_LABELS, MAX_RANK};

/// The matrix that a line gives, as `cert 3 3 2 4` does that of B 3.
pub(crate) fn read_matrix(line: &[u8]) -> Option<Coxeter>
    ensures matrix { IfSome result (λ g. line.now ≡ matrix_line g) }
    ensures is { IfSome result IsCoxeterMatrix }
    ensures limit { IfSome result (λ g. g.rank ≤ MAX_RANK) }
    ensures none { IfNone result ((g : CoxeterMatrix) → IsCoxeterMatrix g → g.rank ≤ MAX_RANK → line.now ≢ matrix_line g) }
{
    let (rank, labels) = cut(behind(line, b"cert ")?, b' ');
    let rank = read_rank(rank)?;
    let labels = read_labels(labels, rank * (rank - 1) / 2)?;
    match Coxeter::of_labels(rank, labels.as_slice()) {
        Ok(group) => Some(group),
        Err(_) => None,
    }
}

/// A rank: a number from 1 to the greatest rank.
fn read_rank(text: &[u8]) -> Option<usize>
    ensures { MatchOption result
        ((n : ℕ) → 1 ≤ n → n ≤ MAX_RANK → decimal n ≢ text.now)
        (λ n. (1 ≤ n) × (n ≤ MAX_RANK) × (decimal n ≡ text.now)) }
{
    let rank = read_decimal(text)? as usize;
    if rank <= MAX_RANK { Some(rank) } else { None }
}

/// So many labels of one digit, each behind a space.
fn read_labels(text: &[u8], count: usize) -> Option<ArrayVec<u32, MAX_LABELS>>
    requires { count ≤ MAX_LABELS }
    ensures { MatchOption result
        ((labels : List ℕ) → AreDigits labels → length labels ≡ count → labels_text labels ≢ text.now)
        (λ labels. AreDigits labels.items × (length labels.items ≡ count) × (labels_text labels.items ≡ text.now)) }
{
    if text.len() != 2 * count {
        return None;
    }
    let mut labels = ArrayVec::new();
    for k in 0..count {
        let (space, digit) = (text[2 * k], text[2 * k + 1]);
        if space != b' ' || !digit.is_ascii_digit() {
            return None;
        }
        labels.push(u32::from(digit - b'0'));
    }
    Some(labels)
}
