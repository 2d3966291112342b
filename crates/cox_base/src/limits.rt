//! How large a group and a word may be.

/// The greatest rank that is admitted.
pub const MAX_RANK: usize = 16;

/// The greatest rank in which each letter is one digit. In greater ones dots stand between the letters of a word.
pub const MAX_DIGIT_RANK: usize = 9;

/// How many labels a matrix of the greatest rank has.
pub const MAX_LABELS: usize = MAX_RANK * (MAX_RANK - 1) / 2;

/// How many letters a word has at most.
pub const MAX_LETTERS: usize = 255;
