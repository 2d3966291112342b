//! What is told of a line.

ghost use Rattle.std.specs.Prelude.{◌≡◌, ℕ, ◌+◌, ◌-◌, ◌<◌, if◌then◌else◌, List, length, Some, IfSome, position};
ghost use Rattle.cox_tokens.specs.declared.limits.TheConstants.{LINE_LIMIT};
ghost use Rattle.cox_tokens.specs.Line.{content_of, is_foreign};
ghost use Rattle.cox_outside.specs.Scan.{KeepsLine};
ghost use Rattle.cox_outside.specs.Reader.{ShowsContent, stop_of, halt_of};

use crate::line_reader::{Next, Stop};
use crate::line_scan::Ended;
use cox_tokens::LINE_LIMIT;

/// What a reader that has stopped answers.
pub fn stopped<'a>(stop: Stop) -> Next<'a>
    ensures { stop_of result ≡ Some stop }
{
    match stop {
        Stop::End => Next::End,
        Stop::Failed => Next::Failed,
        Stop::Limit => Next::Limit,
    }
}

/// Whether a reader stops at the end of this line.
pub fn stop_at(ended: Ended) -> Option<Stop>
    ensures { result ≡ halt_of ended }
{
    match ended {
        Ended::Line(_, _) => None,
        Ended::Last(_, _) | Ended::End => Some(Stop::End),
        Ended::Failed => Some(Stop::Failed),
        Ended::Limit => Some(Stop::Limit),
    }
}

/// What is told of the line of which this was kept.
pub fn show(buffer: &[u8], count: usize, by_cr: bool) -> Next<'_>
    requires { length buffer.now ≡ LINE_LIMIT + 1 }
    ensures { (line : List ℕ) → KeepsLine line count by_cr buffer.now → ShowsContent result (content_of line) }
{
    let len = content_len(count, by_cr);
    if len > LINE_LIMIT {
        return Next::Long(len);
    }
    let content = &buffer[..len];
    match first_foreign(content) {
        Some(before) => Next::Byte(before + 1),
        None => Next::Line(content),
    }
}

/// The length of a line without the CR right before its end.
fn content_len(count: usize, by_cr: bool) -> usize
    ensures { result ≡ (if by_cr then count - 1 else count) }
{
    if by_cr {
        count.saturating_sub(1)
    } else {
        count
    }
}

/// How many bytes stand before the first that no line may have.
fn first_foreign(bytes: &[u8]) -> Option<usize>
    ensures place { result ≡ position is_foreign bytes.now }
    ensures within { IfSome result (λ before. before < length bytes.now) }
{
    bytes.iter().position(|byte| *byte < 0x20 || *byte > 0x7e)
}
