//! Lines where a list of blocks is open, and the end of that list.
use crate::block_answerer::BlockAnswerer;
use crate::block_line::{Reading, parting_word, read_in_block};
use crate::list::{JobList, KeptLine};
use crate::session::{Said, Session};
use cox_command::{ListWord, Refusal};
use std::alloc::{AllocError, Global};

impl Session {
    ghost use Rattle.std.specs.Prelude.{◌≡◌, ◌<◌, ◌^◌, length, None, IsSome, IfOk, OnErr};
    ghost use Rattle.cox_command.specs.declared.command.Command.TheVariants.{Jobs};
    ghost use Rattle.cox_shell.specs.declared.session.Said.TheVariants.{Answered};
    ghost use Rattle.cox_shell.specs.Reply.{Reply, silence};
    ghost use Rattle.cox_shell.specs.CommandReply.{IsCommandReply};
    ghost use Rattle.cox_shell.specs.ListReply.{IsReplyTo, unread_reply};
    ghost use Rattle.cox_shell.specs.Blocks.{IsEndOfList};
    ghost use Rattle.cox_shell.specs.BlockReading.{Gives};
    ghost use Rattle.cox_shell.specs.Keeping.{with_line, with_block};
    ghost use Rattle.cox_shell.specs.Saying.{Says, SaysPrefix};

    /// Ends the list that is open, and answers it. On `NoMemory` the session is as before, and a prefix of the answer is appended.
    pub(crate) fn end_list<M: BlockAnswerer>(
        &mut self,
        maker: &M,
        out: &mut Vec<u8>,
    ) -> Result<Said, AllocError>
        requires open_list { IsSome self.old.list }
        requires ready { M.ready maker.now }
        ensures ok { IfOk result (λ said. (reply : Reply) × IsEndOfList self.old reply
            × Says said reply self.new out.old.items out.new.items) }
        ensures err { OnErr result ((reply : Reply) × IsEndOfList self.old reply
            × SaysPrefix reply self.old self.new out.old.items out.new.items) }
    {
        let Some(list) = self.list.take() else {
            unreachable!();
        };
        match self.answer_blocks(maker, list.blocks(), out) {
            Ok(said) => Ok(said),
            Err(error) => {
                self.list = Some(list);
                Err(error)
            }
        }
    }

    /// Answers a line with this content where a list is open.
    pub(super) fn answer_in_list<M: BlockAnswerer>(
        &mut self,
        maker: &M,
        line: &[u8],
        out: &mut Vec<u8>,
    ) -> Result<Said, AllocError>
        requires size { length line.now < 2 ^ 32 }
        requires open_list { IsSome self.old.list }
        requires ready { M.ready maker.now }
        ensures ok { IfOk result (λ said. (reply : Reply) × IsReplyTo self.old line.now reply
            × Says said reply self.new out.old.items out.new.items) }
        ensures err { OnErr result ((reply : Reply) × IsReplyTo self.old line.now reply
            × SaysPrefix reply self.old self.new out.old.items out.new.items) }
    {
        let rank = self.rank();
        let gives = read_in_block(line, rank);
        match parting_word(line, &gives) {
            Some(ListWord::Next) => self.begin_block(),
            Some(ListWord::End) => self.end_list(maker, out),
            None => self.keep_content(line, Reading { rank, gives }, *out.allocator()),
        }
    }

    /// Takes a line whose bytes are refused for this reason.
    pub(super) fn take_unread(
        &mut self,
        why: Refusal,
        out: &mut Vec<u8>,
    ) -> Result<Said, AllocError>
        ensures ok { IfOk result (λ said. Says said (unread_reply self.old why) self.new out.old.items out.new.items) }
        ensures err { OnErr result (SaysPrefix (unread_reply self.old why) self.old self.new out.old.items out.new.items) }
    {
        if self.has_list() {
            return self.keep(KeptLine::refused(*out.allocator(), why));
        }
        self.refuse(why, out)
    }

    /// Opens a list of one empty block. Without memory nothing changes.
    pub(super) fn open_list(&mut self, alloc: Global) -> Result<Said, AllocError>
        ensures ok { IfOk result (λ said. (said ≡ Answered) × IsCommandReply Jobs self.old (silence self.new)) }
        ensures err { OnErr result (self.new ≡ self.old) }
    {
        self.list = Some(JobList::new(alloc)?);
        Ok(Said::Answered)
    }

    /// Begins a block in the list that is open. Without memory nothing changes.
    fn begin_block(&mut self) -> Result<Said, AllocError>
        requires { IsSome self.old.list }
        ensures ok { IfOk result (λ said. (said ≡ Answered) × (self.new ≡ with_block self.old)) }
        ensures err { OnErr result (self.new ≡ self.old) }
    {
        let Some(list) = &mut self.list else {
            unreachable!();
        };
        list.begin_block()?;
        Ok(Said::Answered)
    }

    /// Keeps a line with this content, which was read, in the list that is open. Without memory nothing changes.
    fn keep_content(
        &mut self,
        line: &[u8],
        reading: Reading,
        alloc: Global,
    ) -> Result<Said, AllocError>
        requires size { length line.now < 2 ^ 32 }
        requires gives { Gives reading.gives line.now reading.rank }
        requires open_list { IsSome self.old.list }
        ensures ok { IfOk result (λ said. (said ≡ Answered)
            × (self.new ≡ with_line self.old (record { content = line.now; refused = None }))) }
        ensures err { OnErr result (self.new ≡ self.old) }
    {
        self.keep(KeptLine::read(alloc, line, reading)?)
    }

    /// Keeps a line in the list that is open. Without memory nothing changes.
    fn keep(&mut self, line: KeptLine) -> Result<Said, AllocError>
        requires { IsSome self.old.list }
        ensures ok { IfOk result (λ said. (said ≡ Answered) × (self.new ≡ with_line self.old line)) }
        ensures err { OnErr result (self.new ≡ self.old) }
    {
        let Some(list) = &mut self.list else {
            unreachable!();
        };
        list.add(line)?;
        Ok(Said::Answered)
    }
}
