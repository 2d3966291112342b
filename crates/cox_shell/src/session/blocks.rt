//! The blocks of a list: what their lines are answered.
use crate::answered::AnsweredText;
use crate::block_answerer::BlockAnswerer;
use crate::block_line::{BlockLine, read_in_block};
use crate::list::{Block, KeptLine, is_long};
use crate::prefetch::inquiries_of;
use crate::session::{Said, Session, Stage};
use cox_answers::RowMaker;
use cox_command::Refusal;
use std::alloc::{AllocError, Global};

impl Session {
    ghost use Rattle.std.specs.Prelude.{◌≡◌, false, None, IfOk, OnErr, OnOk};
    ghost use Rattle.cox_shell.specs.Reply.{Reply, rank_of};
    ghost use Rattle.cox_shell.specs.OpenLists.{is_long};
    ghost use Rattle.cox_shell.specs.Blocks.{IsBlockLineReply, IsListReply};
    ghost use Rattle.cox_shell.specs.BlockReading.{HasBlockWords, IsBlockReply};
    ghost use Rattle.cox_shell.specs.AnsweredText.{AnswersBlock, AnswersBlocks, AnswersLine, AnswersList};
    ghost use Rattle.cox_shell.specs.Saying.{SaysText};
    ghost use Rattle.cox_poly.specs.Puts.{PutsPrefix};

    /// Answers blocks, behind what `out` has, where no list is open. On `NoMemory` a prefix of the answer is appended.
    pub(super) fn answer_blocks<M: BlockAnswerer>(
        &mut self,
        maker: &M,
        blocks: &[Block],
        out: &mut Vec<u8>,
    ) -> Result<Said, AllocError>
        requires outside { self.old.list ≡ None }
        requires ready { M.ready maker.now }
        ensures same { self.new ≡ self.old }
        ensures ok { IfOk result (λ said. (reply : Reply) × IsListReply self.old blocks.now reply
            × SaysText said reply out.old.items out.new.items) }
        ensures err { OnErr result ((reply : Reply) × IsListReply self.old blocks.now reply
            × PutsPrefix reply.text out.old.items out.new.items) }
    {
        let _rank = self.rank();
        if is_long(blocks) {
            return self.refuse(Refusal::LongList, out);
        }
        let answered = self.answer_short_list(maker, blocks, *out.allocator())?;
        let said = answered.said();
        answered.put_behind(out)?;
        Ok(said)
    }

    /// Answers the blocks of a list that is not too long: at once, where the maker does that, or else one after another.
    fn answer_short_list<M: BlockAnswerer>(
        &mut self,
        maker: &M,
        blocks: &[Block],
        alloc: Global,
    ) -> Result<AnsweredText, AllocError>
        requires outside { self.old.list ≡ None }
        requires short { is_long blocks.now ≡ false }
        requires ready { M.ready maker.now }
        ensures same { self.new ≡ self.old }
        ensures answered { IfOk result (λ answered. AnswersList self.old blocks.now answered) }
    {
        if let Some(answered) = maker.answer_at_once(self, alloc, blocks) {
            return Ok(answered);
        }
        let mut answered = AnsweredText::new(alloc);
        self.answer_each_block(maker, blocks, &mut answered)?;
        Ok(answered)
    }

    /// Makes the rows that the lines of these blocks will ask for. No answer depends on it.
    pub(crate) fn make_ahead<M: RowMaker>(&mut self, maker: &M, alloc: Global, blocks: &[Block])
        requires { M.ready maker.now }
        ensures { self.new ≡ self.old }
    {
        let Stage::Set(work) = &mut self.stage else {
            return;
        };
        if let Ok(inquiries) = inquiries_of(alloc, blocks, work.rank()) {
            work.make_ahead(maker, alloc, inquiries.as_slice());
        }
    }

    /// Answers blocks, one after another, behind what was answered before.
    fn answer_each_block<M: RowMaker>(
        &mut self,
        maker: &M,
        blocks: &[Block],
        answered: &mut AnsweredText,
    ) -> Result<(), AllocError>
        requires ready { M.ready maker.now }
        ensures same { self.new ≡ self.old }
        ensures answered { OnOk result (AnswersBlocks self.old blocks.now answered.old answered.new) }
    {
        'each: for block in blocks {
            self.answer_block(maker, block, answered)?;
        }
        Ok(())
    }

    /// Answers the lines of a block, one after another, behind what was answered before.
    pub(crate) fn answer_block<M: RowMaker>(
        &mut self,
        maker: &M,
        block: &Block,
        answered: &mut AnsweredText,
    ) -> Result<(), AllocError>
        requires ready { M.ready maker.now }
        ensures same { self.new ≡ self.old }
        ensures answered { OnOk result (AnswersBlock self.old block.now answered.old answered.new) }
    {
        'lines: for line in block.lines() {
            self.answer_kept_line(maker, line, answered)?;
        }
        Ok(())
    }

    /// Answers a line of a block, behind what was answered before.
    fn answer_kept_line<M: RowMaker>(
        &mut self,
        maker: &M,
        line: &KeptLine,
        answered: &mut AnsweredText,
    ) -> Result<(), AllocError>
        requires ready { M.ready maker.now }
        ensures same { self.new ≡ self.old }
        ensures answered { OnOk result (AnswersLine self.old line.now answered.old answered.new) }
    {
        let mut text = answered.take();
        let said = self.answer_block_line(maker, line, &mut text)?;
        answered.put(text, said);
        Ok(())
    }

    /// Answers a line of a block, behind what `out` has.
    fn answer_block_line<M: RowMaker>(
        &mut self,
        maker: &M,
        line: &KeptLine,
        out: &mut Vec<u8>,
    ) -> Result<Said, AllocError>
        requires ready { M.ready maker.now }
        ensures same { self.new ≡ self.old }
        ensures ok { IfOk result (λ said. (reply : Reply) × IsBlockLineReply self.old line.now reply
            × SaysText said reply out.old.items out.new.items) }
    {
        if let Some(why) = line.refusal() {
            return self.refuse(why, out);
        }
        let rank = self.rank();
        if let Some(gives) = line.gives(rank) {
            return self.answer_reading(maker, gives, out);
        }
        let gives = read_in_block(line.content(), rank);
        self.answer_reading(maker, &gives, out)
    }

    /// Answers what a line of a block gives.
    fn answer_reading<M: RowMaker>(
        &mut self,
        maker: &M,
        gives: &BlockLine,
        out: &mut Vec<u8>,
    ) -> Result<Said, AllocError>
        requires words { HasBlockWords gives.now (rank_of self.old) }
        requires ready { M.ready maker.now }
        ensures same { self.new ≡ self.old }
        ensures ok { IfOk result (λ said. (reply : Reply) × IsBlockReply gives.now self.old reply
            × SaysText said reply out.old.items out.new.items) }
    {
        match gives {
            BlockLine::Blank => Ok(Said::Answered),
            BlockLine::Ask(inquiry) => self.answer_inquiry(maker, inquiry, out),
            BlockLine::Refused(why) => self.refuse(*why, out),
        }
    }
}
