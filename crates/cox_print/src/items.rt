//! Items of lists: pairs, members of cells, and elements of W-graphs with their edges.
ghost use Rattle.std.specs.Prelude.{◌≤◌, ◌∷◌, ◌++◌, codes};
ghost use Rattle.cox_base.specs.Matrix.{IsWord};
ghost use Rattle.cox_poly.specs.Puts.{Puts};
ghost use Rattle.cox_print.specs.AnswerText.{element_text, pair_text, head_text, edge_text};
ghost use Rattle.cox_print.specs.MemberText.{member_text};

use crate::NoMemory;
use crate::element::{put_element, put_next_element, put_set};
use cox_base::{MAX_RANK, Word};
use cox_poly::PolyView;
use cox_poly::append::{put_number, put_text};

/// Appends the next pair of a list: the end of the line before, then an element, `:` and a polynomial, as in `12:1+q`. A list begins with
/// `put_count`, the number of its pairs. `rank` is that of the group.
pub fn put_next_pair(
    out: &mut Vec<u8>,
    rank: u32,
    x: &Word,
    p: &PolyView<'_>,
) -> Result<(), NoMemory>
    requires rank { rank ≤ MAX_RANK }
    requires word { IsWord rank x.now.items }
    ensures { Puts result (10 ∷ pair_text rank x.now.items p.now) out.old.items out.new.items }
{
    put_next_element(out, rank, x)?;
    put_text(out, b":")?;
    p.put_text(out)
}

/// Appends a member of a cell: a space unless it is the first, then the element. `rank` is that of the group.
pub fn put_member(out: &mut Vec<u8>, rank: u32, x: &Word, first: bool) -> Result<(), NoMemory>
    requires rank { rank ≤ MAX_RANK }
    requires word { IsWord rank x.now.items }
    ensures { Puts result (member_text rank x.now.items first) out.old.items out.new.items }
{
    if first {
        return put_element(out, rank, x);
    }
    put_other_element(out, rank, x)
}

/// Appends a space and an element.
pub(crate) fn put_other_element(out: &mut Vec<u8>, rank: u32, x: &Word) -> Result<(), NoMemory>
    requires rank { rank ≤ MAX_RANK }
    requires word { IsWord rank x.now.items }
    ensures { Puts result (codes " " ++ element_text rank x.now.items) out.old.items out.new.items }
{
    put_text(out, b" ")?;
    put_element(out, rank, x)
}

/// Appends an element of a W-graph, a space and its label, a set of letters, as in `12 1`. `rank` is that of the group.
pub fn put_head(out: &mut Vec<u8>, rank: u32, x: &Word, label: &Word) -> Result<(), NoMemory>
    requires rank { rank ≤ MAX_RANK }
    requires word { IsWord rank x.now.items }
    requires label { IsWord rank label.now.items }
    ensures { Puts result (head_text rank x.now.items label.now.items) out.old.items out.new.items }
{
    put_element(out, rank, x)?;
    put_text(out, b" ")?;
    put_set(out, rank, label)
}

/// Appends an edge of it: a space, the element that it leads to, `:` and its value, as in ` 12:1`. `rank` is that of the group.
pub fn put_edge(out: &mut Vec<u8>, rank: u32, y: &Word, value: i64) -> Result<(), NoMemory>
    requires rank { rank ≤ MAX_RANK }
    requires word { IsWord rank y.now.items }
    ensures { Puts result (edge_text rank y.now.items value) out.old.items out.new.items }
{
    put_other_element(out, rank, y)?;
    put_text(out, b":")?;
    put_number(out, i128::from(value))
}
