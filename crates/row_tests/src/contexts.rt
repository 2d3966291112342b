//! How many pairs of elements are in Bruhat order, against published numbers.
use crate::fixtures::elements;
use cox_context::Context;
use std::test::Fail;

/// How many pairs of members are in Bruhat order.
fn count_pairs(context: &Context) -> u32 {
    let mut count = 0u32;
    for i in 0..context.len() {
        for j in 0..context.len() {
            count = count.wrapping_add(context.below(i, j) as u32);
        }
    }
    count
}

#[test]
fn has_the_published_pairs_of_symmetric_groups(rt: HostRuntime) -> Result<(), Fail> {
    for (n, order, pairs) in [(1, 2, 3), (2, 6, 19), (3, 24, 213), (4, 120, 3781)] {
        let context = elements(&rt, rt.alloc(), b'A', n, order)?;
        assert!(rt; count_pairs(&context) == pairs, "A {n}");
    }
    Ok(())
}
