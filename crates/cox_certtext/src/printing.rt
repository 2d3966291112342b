//! What stands before the list of a certificate's entries, and what stands behind it.
ghost use Rattle.std.specs.Prelude.{◌<◌, ◌≤◌};
ghost use Rattle.cox_base.specs.Matrix.{IsWord};
ghost use Rattle.cox_poly.specs.Puts.{Puts};
ghost use Rattle.cox_certtext.specs.Certificate.{matrix_line};
ghost use Rattle.cox_certtext.specs.LabelPairs.{IsNextPair};
ghost use Rattle.cox_certtext.specs.CertificateParts.{label_text, labels_text, next_top_line, certificate_head, certificate_foot};

use cox_base::{Coxeter, MAX_RANK, Word};
use cox_print::{NoMemory, put_count, put_element, put_text};

/// Appends the lines of the group and of the element, and the third line as far as the number of the entries. Behind it stands
/// the list of the entries: their number, and for each the end of the line before, the word, `:` and the polynomial.
///
/// For `12` in A 2 it is `cert 2 3`, `element 12` and `rows `.
pub fn put_head(out: &mut Vec<u8>, g: &Coxeter, top: &Word) -> Result<(), NoMemory>
    requires { IsWord g.now.rank top.now.items }
    ensures { Puts result (certificate_head g.now top.now.items) out.old.items out.new.items }
{
    put_matrix_line(out, g)?;
    put_top_line(out, g.rank(), top)?;
    put_text(out, b"\nrows ")
}

/// Appends the end of the last entry's line, and the last line: `end`. Its own end is not part of the text.
pub fn put_foot(out: &mut Vec<u8>) -> Result<(), NoMemory>
    ensures { Puts result certificate_foot out.old.items out.new.items }
{
    put_text(out, b"\nend")
}

/// Appends the first line: `cert`, the rank and the labels.
fn put_matrix_line(out: &mut Vec<u8>, g: &Coxeter) -> Result<(), NoMemory>
    ensures { Puts result (matrix_line g.now) out.old.items out.new.items }
{
    put_text(out, b"cert ")?;
    put_count(out, g.rank() as usize)?;
    put_labels(out, g)
}

/// Appends the labels, a space before each.
fn put_labels(out: &mut Vec<u8>, g: &Coxeter) -> Result<(), NoMemory>
    ensures { Puts result (labels_text g.now.labels) out.old.items out.new.items }
{
    let rank = g.rank() as u8;
    let mut s = 1;
    let mut t = 2;
    for _k in 0..rank * (rank - 1) / 2 {
        put_label(out, g.label(s, t))?;
        let next = next_pair(rank, s, t);
        s = next.0;
        t = next.1;
    }
    Ok(())
}

/// The nodes s < t of the label behind that of s and t.
fn next_pair(rank: u8, s: u8, t: u8) -> (u8, u8)
    requires rank { rank ≤ MAX_RANK }
    requires from_one { 1 ≤ s }
    requires rising { s < t }
    requires to_rank { t ≤ rank }
    ensures { IsNextPair rank s t result.0 result.1 }
{
    if t < rank { (s, t + 1) } else { (s + 1, s + 2) }
}

/// Appends a space and a label.
fn put_label(out: &mut Vec<u8>, label: u32) -> Result<(), NoMemory>
    ensures { Puts result (label_text label) out.old.items out.new.items }
{
    put_text(out, b" ")?;
    put_count(out, label as usize)
}

/// Appends the end of the first line, and the second: `element` and the word. The rank is that of the group.
fn put_top_line(out: &mut Vec<u8>, rank: u32, top: &Word) -> Result<(), NoMemory>
    requires rank { rank ≤ MAX_RANK }
    requires word { IsWord rank top.now.items }
    ensures { Puts result (next_top_line rank top.now.items) out.old.items out.new.items }
{
    put_text(out, b"\nelement ")?;
    put_element(out, rank, top)
}
