//! Arithmetic of words of up to 255 letters, by heights of roots in 64 bits, and where a sum overflows by the table of small roots (Brink
//! and Howlett, "A finiteness property and an automatic structure for Coxeter groups", 1993), for every Coxeter matrix with labels 2, 3, 4,
//! 6 and infinity.
//!
//! A `RootTable` has the small roots of a group, of which there are finitely many, and where each letter takes each of them. What a letter
//! does behind a reduced word is read off the table, from the last letter of the word to the first. All else follows: reduced words,
//! lengths, descents, normal forms, inverses, products and Bruhat order. Heights (`cox_reflect`) are faster, so each call tries them first.
//! Only `RootTable::build` takes memory.
//!
//! - `root`: a root with its coroot, by coordinates
//! - `roots`: a set of roots
//! - `closure`: the search for all small roots
//! - `moves`: where each letter takes each small root
//! - `table`: the table
//! - `products`: products by letters, and reduced words
//! - `by_heights`: what heights tell, if no sum overflows
//! - `forms`: normal forms, lengths, descents, inverses and products
//! - `order`: Bruhat order
//! - `words`: a table as an arithmetic of words
//! - `fault`: why there is no table
#![tactic(auto)]

mod by_heights;
mod closure;
mod fault;
mod forms;
mod moves;
mod order;
mod products;
mod root;
mod roots;
mod table;
mod words;

pub use closure::MAX_SMALL_ROOTS;
pub use fault::RootFault;
pub use table::RootTable;
