//! The element that a row is made from first.
ghost use Rattle.std.specs.Prelude.{◌≡◌, ◌<◌, length, None, IfSome};

use cox_context::Context;
use cox_klstep::Descent;

/// The number of the member that is shorter than the member with the number i by its least left descent; `None` for the identity. The row
/// of the member is made from the row of this one.
pub fn shorter_member(context: &Context, i: u32) -> Option<u32>
    requires { i < length context.now.members }
    ensures before { IfSome result (λ j. j < i) }
    ensures none { i ≡ 0 → result ≡ None }
{
    let _len = context.len();
    if i == 0 {
        return None;
    }
    let descent = Descent::of(context, i);
    Some(descent.lower)
}
