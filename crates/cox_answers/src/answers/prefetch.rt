//! Rows that are made before they are asked for.
ghost use Rattle.std.specs.Prelude.{◌≡◌, ◌<◌, ℕ, length, All, IfOk, OnOk, IfSome, IsSomeAnd};
ghost use Rattle.cox_command.specs.ParseContract.{HasLetters};
ghost use Rattle.cox_row.specs.Rising.{number_at, AreWithin};
ghost use Rattle.cox_answers.specs.KeptBetween.{IsLookedFor};
ghost use Rattle.cox_answers.specs.Kept.{AreMore, IsMore, IsSameWorkspace, IsMadeOrBeyond};

use crate::faults::ran_out;
use crate::finite::longest_word;
use crate::needs::{Need, need_of};
use crate::row_maker::{RowMaker, with_rows};
use crate::workspace::Workspace;
use cox_base::MAX_RANK;
use cox_command::Inquiry;
use cox_minroots::RootTable;
use cox_replies::{Unanswered, listed_below};
use cox_rows::Rows;
use std::alloc::{AllocError, Global};

impl Workspace {
    /// Makes the rows that commands will ask for, as far as the elements below theirs fit together into what is kept, and settles them.
    ///
    /// If a command is on the whole group, and the group is finite, all its rows are made first. The rows that `work` and `invpol` ask for
    /// are left to them. No answer depends on it: if something is refused, or memory runs out, whoever asks will find that out.
    pub fn make_ahead<M: RowMaker>(&mut self, maker: &M, alloc: Global, inquiries: &[Inquiry])
        requires words { All (HasLetters self.old.table.rank) inquiries.now }
        requires ready { M.ready maker.now }
        ensures { IsSameWorkspace self.old self.new }
    {
        if self.make_group_ahead(maker, alloc, inquiries).is_ok()
            && self.add_intervals(alloc, inquiries).is_ok()
        {
            let _ = self.make_rows_ahead(maker, alloc, inquiries);
        }
    }

    /// Makes the rows of the whole group, if a command is on it and it is finite. `Err` where memory ran out.
    fn make_group_ahead<M: RowMaker>(
        &mut self,
        maker: &M,
        alloc: Global,
        inquiries: &[Inquiry],
    ) -> Result<(), AllocError>
        requires { M.ready maker.now }
        ensures { IsSameWorkspace self.old self.new }
    {
        prove!(self.rank() as usize <= MAX_RANK);
        if !inquiries.iter().any(|inquiry| is_on_group(inquiry))
            || longest_word(self.table()).is_none()
        {
            return Ok(());
        }
        match self.keep_group(maker, alloc) {
            Err(Unanswered::NoMemory) => Err(AllocError),
            _ => Ok(()),
        }
    }

    /// Adds the elements below those whose rows the commands ask for to what is kept, as far as they fit beside it. `Err` where memory ran
    /// out.
    fn add_intervals(&mut self, alloc: Global, inquiries: &[Inquiry]) -> Result<(), AllocError>
        requires { All (HasLetters self.old.table.rank) inquiries.now }
        ensures { IsSameWorkspace self.old self.new }
    {
        'each: for inquiry in inquiries {
            if let Some(w) = need_of(inquiry).row() {
                self.add_interval(alloc, w)?;
            }
        }
        Ok(())
    }

    /// Makes the rows of members that the commands ask for, and settles them. If they ask for inverse polynomials, it looks whether these
    /// can be read off. `Err` where memory ran out: then some of these rows may not be there.
    fn make_rows_ahead<M: RowMaker>(
        &mut self,
        maker: &M,
        alloc: Global,
        inquiries: &[Inquiry],
    ) -> Result<(), AllocError>
        requires words { All (HasLetters self.old.table.rank) inquiries.now }
        requires ready { M.ready maker.now }
        ensures same { IsSameWorkspace self.old self.new }
        ensures more { AreMore self.old.rows self.new.rows }
        ensures known { IsLookedFor self.old.whole → self.new.whole ≡ self.old.whole }
    {
        let Some(rows) = self.kept.rows() else {
            return Ok(());
        };
        let numbers = asked_members(alloc, rows, self.roots.table(), inquiries)?;
        let settled = self.settle_members(maker, alloc, numbers.as_slice());
        if inquiries.iter().any(|inquiry| is_on_interval(inquiry)) {
            self.kept.note_longest();
        }
        settled
    }

    /// Makes the rows of the members with these numbers that are not there, and those that they need, each as far as none of them is beyond
    /// a limit. `Err` where memory ran out: then the others are left out.
    fn settle_members<M: RowMaker>(
        &mut self,
        maker: &M,
        alloc: Global,
        numbers: &[u32],
    ) -> Result<(), AllocError>
        requires members { IsSomeAnd self.old.rows (λ rows. AreWithin (length rows.elements.members) numbers.now) }
        requires ready { M.ready maker.now }
        ensures same { IsSameWorkspace self.old self.new }
        ensures more { AreMore self.old.rows self.new.rows }
        ensures known { self.new.whole ≡ self.old.whole }
        ensures settled { OnOk result (IfSome self.new.rows (λ rows. (k : ℕ) → k < length numbers.now
            → IsMadeOrBeyond rows (number_at numbers.now k))) }
    {
        let Some(rows) = self.kept.take() else {
            unreachable!();
        };
        let mut rows = with_rows(alloc, rows, maker, numbers);
        let settled = settle_each(&mut rows, numbers);
        self.kept.put_back(rows);
        settled
    }
}

/// Whether a command asks for the rows of all elements of the group.
fn is_on_group(inquiry: &Inquiry) -> bool {
    matches!(need_of(inquiry), Need::Group)
}

/// Whether a command asks for the rows between two elements.
fn is_on_interval(inquiry: &Inquiry) -> bool {
    matches!(need_of(inquiry), Need::Between(..))
}

/// The numbers of the members whose rows the commands ask for, each once.
fn asked_members(
    alloc: Global,
    rows: &Rows,
    table: &RootTable,
    inquiries: &[Inquiry],
) -> Result<Vec<u32>, AllocError>
    requires table { table.now ≡ rows.now.elements.matrix }
    requires words { All (HasLetters table.now.rank) inquiries.now }
    ensures { IfOk result (λ numbers. AreWithin (length rows.now.elements.members) numbers.items) }
{
    let mut numbers = Vec::new(alloc);
    for inquiry in inquiries {
        if let Some(i) = asked_member(alloc, rows, table, inquiry)
            && !numbers.contains(&i)
        {
            numbers.push(i)?;
        }
    }
    Ok(numbers)
}

/// The number of the member whose row a command asks for, if there is one. A certificate that is refused without its row asks for none.
fn asked_member(alloc: Global, rows: &Rows, table: &RootTable, inquiry: &Inquiry) -> Option<u32>
    requires table { table.now ≡ rows.now.elements.matrix }
    requires words { HasLetters table.now.rank inquiry.now }
    ensures { IfSome result (λ i. i < length rows.now.elements.members) }
{
    let need = need_of(inquiry);
    let w = need.row()?;
    let i = rows.context().number_of(table, w)?;
    if let Need::Certified(_) = need
        && listed_below(alloc, rows, i).is_err()
    {
        return None;
    }
    Some(i)
}

/// Makes the rows of the members with these numbers that are not there, and those that they need, each as far as none of them is beyond a
/// limit. `Err` where memory ran out: then the others are left out.
fn settle_each(rows: &mut Rows, numbers: &[u32]) -> Result<(), AllocError>
    requires { AreWithin (length rows.old.elements.members) numbers.now }
    ensures more { IsMore rows.old rows.new }
    ensures settled { OnOk result ((k : ℕ) → k < length numbers.now → IsMadeOrBeyond rows.new (number_at numbers.now k)) }
{
    'each: for &i in numbers {
        let made = rows.ensure(i);
        if ran_out(made) {
            return Err(AllocError);
        }
    }
    Ok(())
}
