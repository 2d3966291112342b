//! Rows of Kazhdan-Lusztig polynomials: what is kept of a row, and what is read off it.
//!
//! The row of w has P(x,w) for each x <= w, and mu(x,w). It is kept at the extremal x alone: those to which each left descent of w is a
//! left descent, and each right descent of w a right one. For any other x some letter shortens w and not x; with it x becomes longer, and
//! P(x,w) stays as it is (Kazhdan and Lusztig 1979, 2.3.g). So x is raised until it is extremal, and its polynomial is looked up there. All
//! this goes by the numbers of a context and its tables, and takes no memory.
//!
//! That a row is that of an element, `IsRowOf`, is a property of the row and of the members of a context. Each look-up requires it, and
//! whoever makes a row has to prove it.
//!
//! A row may also read its polynomials off those that are kept for another element. Where a symmetry of the group, with inversion or
//! without, takes w to v, it takes x to some y, and P(x,w) is P(y,v). So the row of w keeps where the members are taken, and shares the
//! polynomials of v. For inversion alone it keeps no list, since the context has the number of the inverse of each member.
//!
//! - `row`: the row and its parts
//! - `places`: the places of polynomials in a pool
//! - `images`: a list of the images of members, by number
//! - `member_map`: where a symmetry takes the members, by such a list or, for inversion alone, by the context
//! - `raised`: raising a member by the descents of another
//! - `reader`: a row made ready for many look-ups of polynomials
//! - `look_up`: the polynomial and mu of any member, how many polynomials there are, and the extremal members
//! - `search`: the place of a number in a list that rises
//! - `row_index`: the same with no search, for the extremal members of one row
//! - `lower_rows`: rows that are at hand, by number
#![tactic(auto)]

mod images;
mod look_up;
mod lower_rows;
mod member_map;
mod places;
mod raised;
mod reader;
mod row;
mod row_index;
mod search;

pub use images::Images;
pub use look_up::{extremal_members, indexed_polynomial, mu, polynomial, pool_len};
pub use lower_rows::LowerRows;
pub use member_map::MemberMap;
pub use places::Places;
pub use raised::{is_subset, raise_fully};
pub use reader::RowReader;
pub use row::{MU_LIMIT, Row, SharedPolynomials, Values};
pub use row_index::RowIndex;
