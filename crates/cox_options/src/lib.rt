//! Reads the arguments of the program: which options they give, or that they give none.
//!
//! The command `coxeter` is a definition (`specs/Command.antt`), in terms of what the crate `clap` says that a parse
//! of a command gives. `read` is exact by it, unless memory runs out: the arguments are refused exactly when that
//! definition refuses them, and else each option is the number that it finds for it. The crate stands on `clap`, and
//! its fault is derived by `thiserror`.
//!
//! The options are a table, `number_options` of `specs/Command.antt`. A further option with a number from 1 on is
//!
//! - its greatest number and its default in `options`, and a field of `Options` with its range
//! - its line in the table, its rule in `definition::command`, and its line and clauses in `reading`
//! - its default in `laws::name_alone_gives_defaults`
//! - in proofs, a line at each step of `definition::command`, two answers of `reading::read`, to its clause and to what
//!   `options_by` requires, and a line in each of the four lemmas of `OneNumber`, where the definition is computed for
//!   each option in turn
//!
//! The other laws and lemmas are of all options of the table. `proofs/Table.antt` computes what they ask of it: no two
//! options have one name, none is called `help` or `version`, and each default is in its range.
//!
//! - `options`: the options as values, each within its range
//! - `definition`: the command as `clap` is told it
//! - `reading`: arguments, and the options that they give
//! - `laws`: what the definition gives: defaults, numbers that are named, and always numbers within their ranges
#![tactic(auto)]

mod definition;
pub mod laws;
mod options;
mod reading;

pub use options::{DEFAULT_WORKERS, MAX_COEF, MAX_CONTEXT, MAX_ROOTS, MAX_WORKERS, Options};
pub use reading::{OptionFault, read, wrong_arguments};
