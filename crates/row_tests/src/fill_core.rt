//! A worked example of the fill core.
ghost use Rattle.std.specs.Prelude.{◌≡◌, vec_len, IfOk};
ghost use Rattle.cox_fill_core.specs.Parts.{given_needs, NeedsLower};

use cox_fill_core::{Core, Event, NoMemory, Reply, RowState};
use std::alloc::Global;
use std::test::Fail;

/// Row 1 needs row 0, which needs none.
fn two_rows(alloc: Global) -> Result<Vec<Vec<u32>>, NoMemory>
    ensures lower { IfOk result (λ needs. NeedsLower (given_needs needs.items)) }
    ensures rows { IfOk result (λ needs. vec_len needs ≡ 2) }
{
    let mut needs = Vec::new(alloc);
    needs.push(Vec::new(alloc))?;
    needs.push([0].to_vec(alloc)?)?;
    Ok(needs)
}

#[test]
fn a_row_waits_for_what_it_needs(rt: HostRuntime) -> Result<(), Fail> {
    let alloc = rt.alloc();
    let mut core = Core::new(alloc, &two_rows(alloc)?, 2)?;
    let replies = core.run(&[
        Event::Claim(0, 1),
        Event::Publish(0, 1),
        Event::Claim(1, 0),
        Event::Publish(0, 0),
        Event::Publish(1, 0),
        Event::Tell(1, 0),
        Event::Publish(0, 1),
        Event::Claim(1, 1),
        Event::Look(1, 1),
        Event::Void(1, 1),
    ])?;
    let wanted = [
        Reply::Won,
        Reply::Missing(0),
        Reply::Won,
        Reply::NotYours,
        Reply::Made,
        Reply::Told,
        Reply::Made,
        Reply::Lost(RowState::Published),
        Reply::Seen(RowState::Published),
        Reply::NotYours,
    ];
    assert!(rt; replies.as_slice() == wanted.as_slice());
    Ok(())
}
