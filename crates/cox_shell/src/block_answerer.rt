//! What answers the blocks of a list at once.
ghost use Rattle.std.specs.Prelude.{◌≡◌, false, IfSome};
ghost use Rattle.cox_shell.specs.OpenLists.{is_long};
ghost use Rattle.cox_shell.specs.AnsweredText.{AnswersList};

use crate::answered::AnsweredText;
use crate::list::Block;
use crate::session::Session;
use cox_answers::{OneThread, RowMaker};
use std::alloc::Global;

/// Makes rows that will be asked for, and may answer the blocks of a list at once. No answer depends on it.
pub trait BlockAnswerer: RowMaker {
    /// What the blocks of a list that is not too long are answered in this session. `None` where they are to be answered one after
    /// another. The session may have made rows.
    fn answer_at_once(
        &self,
        session: &mut Session,
        alloc: Global,
        blocks: &[Block],
    ) -> Option<AnsweredText>
        requires ready { Self.ready self.now }
        requires short { is_long blocks.now ≡ false }
        ensures same { session.new ≡ session.old }
        ensures answered { IfSome result (λ answered. AnswersList session.old blocks.now answered) };
}

impl BlockAnswerer for OneThread {
    fn answer_at_once(
        &self,
        session: &mut Session,
        alloc: Global,
        blocks: &[Block],
    ) -> Option<AnsweredText> {
        let _ = session;
        let _ = alloc;
        let _ = blocks;
        None
    }
}
