//! What a check takes at most: for these sizes no sum of a check overflows. The definition of a certificate bounds the number of its
//! elements alone, by [`MAX_LISTED`]. That the element has at most 39 letters comes from `MAX_DIFFERENCE` of `cox_rpoly`.

/// The most elements that a certificate lists, each with a polynomial.
pub const MAX_LISTED: usize = 4096;

/// The greatest degree of a polynomial that a check takes.
pub const MAX_DEGREE: u32 = 39;

/// The greatest absolute value of a coefficient that a check takes.
pub const MAX_CHECKED_COEFFICIENT: i64 = 2147483647;
