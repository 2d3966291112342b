//! The ends of lines.

ghost use Rattle.std.specs.Prelude.{◌≡◌, ◌+◌, ◌<◌, ◌≤◌, length, slice_set};
ghost use Rattle.cox_tokens.specs.declared.limits.TheConstants.{LINE_LIMIT};
ghost use Rattle.cox_outside.specs.declared.limits.TheConstants.{INPUT_LIMIT};
ghost use Rattle.cox_outside.specs.Supply.{SourceCause};
ghost use Rattle.cox_outside.specs.Ahead.{ahead};
ghost use Rattle.cox_outside.specs.Scan.{Scans, ended_failed};

use crate::byte_feed::{ByteFeed, Came};
use crate::source::Source;

/// What ended a line: its length comes with it, and whether its last byte is CR.
#[derive(Clone, Copy)]
pub enum Ended {
    /// A line ended by LF.
    Line(usize, bool),
    /// The last line, which is not empty, ended with the input.
    Last(usize, bool),
    /// No line: the input has ended.
    End,
    /// No line: a read failed.
    Failed,
    /// No line: a byte beyond the limit came.
    Limit,
}

/// Takes the bytes of the next line and its end. The first ones are kept, as many as a line
/// may have and one for a CR.
pub fn scan_line<S: Source>(feed: &mut ByteFeed, line: &mut [u8], source: &mut S) -> Ended
    requires size { length line.old ≡ LINE_LIMIT + 1 }
    requires budget { feed.old.budget ≤ INPUT_LIMIT }
    ensures size { length line.new ≡ LINE_LIMIT + 1 }
    ensures budget { feed.new.budget ≤ feed.old.budget }
    ensures scans { Scans result line.new (ahead feed.old (S.seen source.old).left)
        (ahead feed.new (S.seen source.new).left) }
    ensures cause { SourceCause (S.seen source.old) (S.seen source.new) (ended_failed result) }
{
    let mut count = 0;
    let mut by_cr = false;
    'scan: loop {
        match feed.next_byte(source) {
            Came::Byte(b'\n') => return Ended::Line(count, by_cr),
            Came::Byte(byte) => {
                keep_byte(line, count, byte);
                count += 1;
                by_cr = byte == b'\r';
            }
            Came::End if count == 0 => return Ended::End,
            Came::End => return Ended::Last(count, by_cr),
            Came::Failed => return Ended::Failed,
            Came::Limit(_) => return Ended::Limit,
        }
    }
}

/// Keeps a byte of a line where there is a place for it.
fn keep_byte(line: &mut [u8], count: usize, byte: u8)
    requires { length line.old ≡ LINE_LIMIT + 1 }
    ensures kept { count < LINE_LIMIT + 1 → line.new ≡ slice_set line.old count byte }
    ensures full { LINE_LIMIT < count → line.new ≡ line.old }
    ensures size { length line.new ≡ LINE_LIMIT + 1 }
{
    if count < line.len() {
        line[count] = byte;
    }
}
