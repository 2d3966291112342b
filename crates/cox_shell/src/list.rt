//! Lists of blocks, and the lines that are kept in them.
use crate::block_line::{BlockLine, Reading};
use crate::limits::{MAX_BLOCKS, MAX_LINES};
use cox_command::Refusal;
use std::alloc::{AllocError, Global};
use std::marker::Model;
use std::snapshot::Snapshot;

/// A line that is kept in a list: its content, or why its bytes are refused; and what it gives, if it was read.
#[derive(Drop)]
pub struct KeptLine {
    content: Vec<u8>,
    refused: Option<Refusal>,
    reading: Option<Reading>,
}

impl Model for KeptLine {
    ghost use Rattle.std.specs.Prelude.{◌<◌, ◌^◌, length};
    ghost use Rattle.cox_shell.specs.Reply.{Kept};
    ghost use Rattle.cox_shell.specs.BlockReading.{IsReadingOf};

    ghost Value = { Kept };

    ghost view = { λ line. record { content = line.content.items; refused = line.refused } };

    ghost invariant = { λ line. (length line.content.items < 2 ^ 32) × IsReadingOf line.reading line.content.items };
}

impl KeptLine {
    ghost use Rattle.std.specs.Prelude.{◌≡◌, ◌<◌, ◌^◌, [], None, Some, length, IfOk, IfSome};
    ghost use Rattle.cox_shell.specs.BlockReading.{Gives};

    /// A line with this content.
    pub fn new(alloc: Global, content: &[u8]) -> Result<KeptLine, AllocError>
        requires { length content.now < 2 ^ 32 }
        ensures { IfOk result (λ line. line ≡ record { content = content.now; refused = None }) }
    {
        Ok(KeptLine {
            content: content.to_vec(alloc)?,
            refused: None,
            reading: None,
        })
    }

    /// A line with this content, which was read.
    pub(crate) fn read(
        alloc: Global,
        content: &[u8],
        reading: Reading,
    ) -> Result<KeptLine, AllocError>
        requires size { length content.now < 2 ^ 32 }
        requires gives { Gives reading.gives content.now reading.rank }
        ensures { IfOk result (λ line. line ≡ record { content = content.now; refused = None }) }
    {
        Ok(KeptLine {
            content: content.to_vec(alloc)?,
            refused: None,
            reading: Some(reading),
        })
    }

    /// A line whose bytes are refused.
    pub fn refused(alloc: Global, why: Refusal) -> KeptLine
        ensures { result ≡ record { content = []; refused = Some why } }
    {
        KeptLine {
            content: Vec::new(alloc),
            refused: Some(why),
            reading: None,
        }
    }

    /// Its content. Nothing where its bytes are refused.
    pub fn content(&self) -> &[u8]
        ensures content { result.now ≡ self.now.content }
        ensures size { length result.now < 2 ^ 32 }
    {
        self.content.as_slice()
    }

    /// What it gives where the group that is set, if any, has this rank; `None` where it was not read for this rank.
    pub(crate) fn gives(&self, rank: Option<u32>) -> Option<&BlockLine>
        ensures { IfSome result (λ gives. Gives gives.now self.now.content rank) }
    {
        match &self.reading {
            Some(reading) if reading.rank == rank => Some(&reading.gives),
            _ => None,
        }
    }

    /// Why its bytes are refused, if they are.
    pub fn refusal(&self) -> Option<Refusal>
        ensures { result ≡ self.now.refused }
    {
        self.refused
    }
}

/// A block of a list: lines that are kept. Contracts see the list of them.
#[derive(Drop)]
pub struct Block {
    lines: Vec<KeptLine>,
}

impl Model for Block {
    ghost use Rattle.std.specs.Prelude.{List};
    ghost use Rattle.cox_shell.specs.Reply.{Kept};

    ghost Value = { List Kept };

    ghost view = { λ block. block.lines.items };
}

impl Block {
    ghost use Rattle.std.specs.Prelude.{◌≡◌, [], ◌∷◌, ◌++◌, OnOk, OnErr};

    /// An empty block.
    pub fn new(alloc: Global) -> Block
        ensures { result ≡ [] }
    {
        Block {
            lines: Vec::new(alloc),
        }
    }

    /// Adds a line. Without memory nothing changes.
    pub fn push(&mut self, line: KeptLine) -> Result<(), AllocError>
        ensures ok { OnOk result (self.new ≡ self.old ++ line ∷ []) }
        ensures err { OnErr result (self.new ≡ self.old) }
    {
        self.lines.push(line)?;
        Ok(())
    }

    /// Its lines.
    pub fn lines(&self) -> &[KeptLine]
        ensures { result.now ≡ self.now }
    {
        self.lines.as_slice()
    }
}

/// Blocks of a list, one behind the other. Contracts see the lines of each.
#[derive(Drop)]
struct Blocks {
    blocks: Vec<Block>,
}

impl Model for Blocks {
    ghost use Rattle.cox_shell.specs.Reply.{OpenList};

    ghost Value = { OpenList };

    ghost view = { λ list. list.blocks.items };
}

impl Blocks {
    ghost use Rattle.std.specs.Prelude.{◌≡◌, ◌<◌, [], ◌∷◌, length, IfOk, OnOk, OnErr};
    ghost use Rattle.cox_shell.specs.OpenLists.{then_line, then_block};

    /// One empty block.
    fn one(alloc: Global) -> Result<Blocks, AllocError>
        ensures { IfOk result (λ list. list ≡ [] ∷ []) }
    {
        let mut blocks = Vec::new(alloc);
        blocks.push(Block::new(alloc))?;
        Ok(Blocks { blocks })
    }

    /// Adds a line to the last block. Without memory nothing changes.
    fn add(&mut self, line: KeptLine) -> Result<(), AllocError>
        requires { 0 < length self.old }
        ensures ok { OnOk result (self.new ≡ then_line self.old line) }
        ensures err { OnErr result (self.new ≡ self.old) }
    {
        let last = self.blocks.len() - 1;
        self.blocks[last].push(line)?;
        Ok(())
    }

    /// Adds an empty block. Without memory nothing changes.
    fn begin_block(&mut self) -> Result<(), AllocError>
        ensures ok { OnOk result (self.new ≡ then_block self.old) }
        ensures err { OnErr result (self.new ≡ self.old) }
    {
        let alloc = *self.blocks.allocator();
        self.blocks.push(Block::new(alloc))?;
        Ok(())
    }

    /// The blocks.
    fn as_slice(&self) -> &[Block]
        ensures { result.now ≡ self.now }
    {
        self.blocks.as_slice()
    }
}

/// A list of blocks that is open. Contracts see all its lines, also those that are not kept. Once the list is too long no more is kept of
/// it, so it takes the memory of at most one block and one line more than a list may have.
#[derive(Drop)]
pub struct JobList {
    kept: Blocks,
    // The whole list, for contracts alone: it has no bytes.
    whole: Snapshot<Blocks>,
}

impl Model for JobList {
    ghost use Rattle.std.specs.Prelude.{◌<◌, length};
    ghost use Rattle.cox_shell.specs.Reply.{OpenList};
    ghost use Rattle.cox_shell.specs.Keeping.{IsKeptOf, IsBounded};

    ghost Value = { OpenList };

    ghost view = { λ list. list.whole.value };

    ghost invariant = { λ list. (0 < length list.kept) × IsBounded list.kept × IsKeptOf list.kept list.whole.value };
}

impl JobList {
    ghost use Rattle.std.specs.Prelude.{◌≡◌, [], ◌∷◌, IfOk, OnOk, OnErr};
    ghost use Rattle.cox_shell.specs.OpenLists.{then_line, then_block};
    ghost use Rattle.cox_shell.specs.Keeping.{IsKeptOf, IsBounded};

    /// A list of one empty block.
    pub fn new(alloc: Global) -> Result<JobList, AllocError>
        ensures { IfOk result (λ list. list ≡ [] ∷ []) }
    {
        let kept = Blocks::one(alloc)?;
        let whole = Snapshot::of(&kept);
        Ok(JobList { kept, whole })
    }

    /// Adds a line to the last block. Without memory nothing changes.
    pub fn add(&mut self, line: KeptLine) -> Result<(), AllocError>
        ensures ok { OnOk result (self.new ≡ then_line self.old line) }
        ensures err { OnErr result (self.new ≡ self.old) }
    {
        let whole = whole_with_line(Snapshot::of(&self.kept), &self.whole, &line);
        if !is_long(self.kept.as_slice()) {
            self.kept.add(line)?;
        }
        self.whole = whole;
        Ok(())
    }

    /// Adds an empty block. Without memory nothing changes.
    pub fn begin_block(&mut self) -> Result<(), AllocError>
        ensures ok { OnOk result (self.new ≡ then_block self.old) }
        ensures err { OnErr result (self.new ≡ self.old) }
    {
        let whole = whole_with_block(Snapshot::of(&self.kept), &self.whole);
        if !is_long(self.kept.as_slice()) {
            self.kept.begin_block()?;
        }
        self.whole = whole;
        Ok(())
    }

    /// The blocks that are kept: all, or, of a list that is too long, no more than make it so.
    pub fn blocks(&self) -> &[Block]
        ensures kept { IsKeptOf result.now self.now }
        ensures bounded { IsBounded result.now }
    {
        self.kept.as_slice()
    }
}

ghost use Rattle.std.specs.Prelude.{◌≡◌};
ghost use Rattle.cox_shell.specs.OpenLists.{then_line, then_block, is_long};

/// The whole list with one more line. A snapshot has no bytes, so any one may be returned; the proof by hand gives it this value.
fn whole_with_line(
    any: Snapshot<Blocks>,
    whole: &Snapshot<Blocks>,
    line: &KeptLine,
) -> Snapshot<Blocks>
    ensures { result.value ≡ then_line whole.now.value line.now }
{
    any
}

/// The whole list with one more block, in the same way.
fn whole_with_block(any: Snapshot<Blocks>, whole: &Snapshot<Blocks>) -> Snapshot<Blocks>
    ensures { result.value ≡ then_block whole.now.value }
{
    any
}

/// Whether there are too many blocks, or too many lines in all.
pub fn is_long(blocks: &[Block]) -> bool
    ensures { result ≡ is_long blocks.now }
{
    if blocks.len() > MAX_BLOCKS {
        return true;
    }
    let mut lines = 0;
    'each: for block in blocks {
        let count = block.lines().len();
        if count > MAX_LINES - lines {
            return true;
        }
        lines += count;
    }
    false
}
