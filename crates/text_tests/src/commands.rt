//! The words that `work` generates, by hand.
use cox_command::work_word;

#[test]
fn generates_words(rt: HostRuntime) {
    let (word, next) = work_word(7, 2);
    assert!(rt; word.as_slice() == [2, 2, 1, 2, 2, 1, 1, 1, 1, 2, 1, 1].as_slice());
    assert_eq!(rt; next, 34_736);
}
