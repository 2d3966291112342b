//! When the whole group is taken in the place of interval after interval.
ghost use Rattle.std.specs.Prelude.{◌≡◌, ◌<◌, ◌≤◌, ◌*◌, ◌-◌, ◌^◌, max, min, None, IfSome, IfNone};

/// How many members there are when the whole group is first tried. With fewer there is little to save: rows are cheap, and so is each
/// growth of the context.
const FIRST_TRY: u32 = 4_096;

/// The whole group is taken if it has at most this many elements for each member. Then what is kept is a good part of it, and a try that
/// fails has not made more than this many elements for each member.
const TIMES: u32 = 16;

/// When the whole group is tried: with 4,096 members, and then each time there are twice as many.
///
/// Its rows are views of one another by more symmetries, and no context has to grow any more. A try that fails is undone, so all tries
/// together cost a constant for each member.
#[derive(Clone, Copy, Debug, Drop)]
pub struct WholeGroupPolicy {
    /// How many members there are when the whole group is tried next.
    due: u32,
}

impl WholeGroupPolicy {
    /// Nothing was tried yet.
    pub fn new() -> WholeGroupPolicy {
        WholeGroupPolicy { due: FIRST_TRY }
    }

    /// How many elements the group may have, if it is to be tried now, with this many members; `None` if it is not. What is to be tried
    /// counts as tried.
    pub fn next_try(&mut self, members: u32, limit: u32) -> Option<u32>
        requires { 1 ≤ limit }
        ensures some { IfSome result (λ n. 1 ≤ n) }
        ensures limit { IfSome result (λ n. n ≤ limit) }
        ensures times { IfSome result (λ n. n ≤ max 1 (16 * members)) }
        ensures due { IfSome result (λ n. min (2 * members) (2 ^ 32 - 1) ≤ self.new.due) }
        ensures early { members < self.old.due → result ≡ None }
        ensures same { IfNone result (self.new ≡ self.old) }
    {
        if members < self.due {
            return None;
        }
        self.due = members.saturating_mul(2);
        Some(members.saturating_mul(TIMES).min(limit).max(1))
    }
}
