//! The ShortLex order of members: their numbers need not follow it, but what is printed does.
ghost use Rattle.std.specs.Prelude.{◌≡◌, ◌≢◌, ◌<◌, length, All};
ghost use Rattle.std.specs.List.{AllPairs};
ghost use Rattle.std.specs.List.Sorted.{IsPermutation};
ghost use Rattle.std.specs.Ordering.{nat_cmp};
ghost use Rattle.std.specs.Cmp.Lexicographic.{slice_cmp};
ghost use Rattle.cox_base.specs.ShortLex.{shortlex_cmp};
ghost use Rattle.cox_base.specs.SortedList.{IsRising};
ghost use Rattle.cox_context.specs.Numbers.{word_at};
ghost use Rattle.cox_replies.specs.Putting.{words_at};

use cox_context::Context;
use cox_klstep::Descent;
use std::cmp::Ordering;

/// Puts the numbers of distinct members into the ShortLex order of the members. Where the members are in that order, no words are compared.
pub fn put_in_order(context: &Context, numbers: &mut Vec<u32>)
    requires members { All (λ x. x < length context.now.members) numbers.old.items }
    requires distinct { AllPairs (λ x y. x ≢ y) numbers.old.items }
    ensures same { IsPermutation numbers.old.items numbers.new.items }
    ensures order { IsRising (words_at context.now.members numbers.new.items) }
{
    prove!(context.len() > 0);
    if context.is_in_order() {
        numbers.sort_unstable();
        return;
    }
    numbers.sort_unstable_by(|&i, &j| compare(context, i, j));
}

/// The ShortLex order of two members by their numbers. A number of no member is taken as that of the identity.
fn compare(context: &Context, i: u32, j: u32) -> Ordering
    ensures { result ≡ shortlex_cmp (word_at context.now.members i) (word_at context.now.members j) }
{
    let i = member_or_identity(context, i);
    let j = member_or_identity(context, j);
    match context.length(i).cmp(&context.length(j)) {
        Ordering::Equal => compare_letters(context, i, j),
        other => other,
    }
}

/// The number itself, if it is that of a member, and else that of the identity.
fn member_or_identity(context: &Context, i: u32) -> u32
    ensures member { result < length context.now.members }
    ensures word { word_at context.now.members result ≡ word_at context.now.members i }
{
    if i < context.len() { i } else { 0 }
}

/// The order of two members of one length, by the first letter that differs.
///
/// The first letter of a normal form is its least left descent. The walk ends where the rests are one member.
fn compare_letters(context: &Context, i: u32, j: u32) -> Ordering
    requires i { i < length context.now.members }
    requires j { j < length context.now.members }
    requires size { length (word_at context.now.members i) ≡ length (word_at context.now.members j) }
    ensures { result ≡ slice_cmp nat_cmp (word_at context.now.members i) (word_at context.now.members j) }
{
    prove!(context.len() > 0);
    let (mut left, mut right) = (i, j);
    while left != right {
        let first = Descent::of(context, left);
        let second = Descent::of(context, right);
        match first.letter.cmp(&second.letter) {
            Ordering::Equal => {
                left = first.lower;
                right = second.lower;
            }
            other => return other,
        }
    }
    Ordering::Equal
}
