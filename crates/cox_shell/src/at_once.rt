//! Blocks that are answered at once, each by one thread.
//!
//! Each thread answers its blocks in a session of its own. The answers are put together in the order of the blocks, so they do not depend
//! on the threads.
ghost use Rattle.std.specs.Prelude.{◌≡◌, ◌<◌, ◌≤◌, ◌+◌, ◌^◌, false, length, IfSome, OnOk};
ghost use Rattle.std.specs.Thread.{IsSync};
ghost use Rattle.cox_shell.specs.OpenLists.{is_long};
ghost use Rattle.cox_shell.specs.AnsweredText.{AnswersBlocks, AnswersList, AnswersListIfOk};

use crate::answered::AnsweredText;
use crate::list::Block;
use crate::prefetch::SharedRows;
use crate::session::Session;
use cox_answers::Workspace;
use cox_outside::{Gate, Point};
use std::alloc::{AllocError, Global};
use std::sync::Wait;
use std::thread::{Threads, join};

/// The answer to the blocks of a list that is not too long, by at most this many threads. `None` if memory ran out in one of them.
///
/// The thread of each block passes the gate under the number of the block, from 1, before it begins the block.
pub fn answer_list<R: Threads + Wait + Sync, G: Gate + Sync>(
    rt: &R,
    gate: &G,
    workers: u32,
    session: &Session,
    alloc: Global,
    blocks: &[Block],
) -> Option<AnsweredText>
    requires workers { 1 ≤ workers }
    requires short { is_long blocks.now ≡ false }
    ensures { IfSome result (λ answered. AnswersList session.now blocks.now answered) }
{
    answer_parts(rt, gate, session, alloc, blocks, 1, workers).ok()
}

/// The same for some of the blocks, which are parted, as the workers are, until each part is left to one. The first block has the number
/// `first`.
fn answer_parts<R: Threads + Wait + Sync, G: Gate + Sync>(
    rt: &R,
    gate: &G,
    session: &Session,
    alloc: Global,
    blocks: &[Block],
    first: u32,
    workers: u32,
) -> Result<AnsweredText, AllocError>
    requires workers { 1 ≤ workers }
    requires numbers { first + length blocks.now < 2 ^ 32 }
    ensures { AnswersListIfOk result session.now blocks.now }
{
    if workers == 1 || blocks.len() < 2 {
        return answer_in_order(rt, gate, session, alloc, blocks, first);
    }
    let low = workers / 2;
    let high = workers - low;
    let (mine, others) = blocks.split_at(share_of(blocks.len(), low, workers));
    let next = first + mine.len() as u32;
    let (front, back) = join(
        rt,
        move || -> Result<AnsweredText, AllocError>
            requires { IsSync R.row × IsSync G.row × (1 ≤ low) × (first + length mine.now < 2 ^ 32) }
            ensures { AnswersListIfOk result session.entry.now mine.entry.now }
        { answer_parts(rt, gate, session, alloc, mine, first, low) },
        move || -> Result<AnsweredText, AllocError>
            requires { IsSync R.row × IsSync G.row × (1 ≤ high) × (next + length others.now < 2 ^ 32) }
            ensures { AnswersListIfOk result session.entry.now others.entry.now }
        { answer_parts(rt, gate, session, alloc, others, next, high) },
    );
    let mut answered = front?;
    answered.append(back?)?;
    Ok(answered)
}

/// Of `count` blocks, how many the first `some` of `all` workers answer: the same part of the blocks as they are of the workers, rounded
/// up.
fn share_of(count: usize, some: u32, all: u32) -> usize
    requires { 1 ≤ all }
    ensures { result ≤ count }
{
    let parts = count
        .saturating_mul(some as usize)
        .saturating_add(all as usize - 1);
    count.min(parts / all as usize)
}

/// The answer to blocks by this thread alone, one after another. It has a session of its own, which reads the rows of this one.
fn answer_in_order<R: Wait, G: Gate>(
    rt: &R,
    gate: &G,
    session: &Session,
    alloc: Global,
    blocks: &[Block],
    first: u32,
) -> Result<AnsweredText, AllocError>
    requires { first + length blocks.now < 2 ^ 32 }
    ensures { AnswersListIfOk result session.now blocks.now }
{
    let mut own = session.fresh()?;
    let mut answered = AnsweredText::new(alloc);
    let workspace = session.workspace();
    answer_each(rt, gate, &mut own, workspace, blocks, first, &mut answered)?;
    Ok(answered)
}

/// Answers blocks in a session, one after another, behind what was answered before. The session reads the rows of this workspace.
fn answer_each<R: Wait, G: Gate>(
    rt: &R,
    gate: &G,
    own: &mut Session,
    workspace: Option<&Workspace>,
    blocks: &[Block],
    first: u32,
    answered: &mut AnsweredText,
) -> Result<(), AllocError>
    requires { first + length blocks.now < 2 ^ 32 }
    ensures same { own.new ≡ own.old }
    ensures answered { OnOk result (AnswersBlocks own.old blocks.now answered.old answered.new) }
{
    let maker = SharedRows { workspace };
    'each: for place in 0..blocks.len() {
        gate.pass(rt, first + place as u32, Point::Block, 0);
        own.answer_block(&maker, &blocks[place], answered)?;
    }
    Ok(())
}
