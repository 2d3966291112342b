//! What tests are run on: all that a whole program is given, an environment, and a gate.
//!
//! A [`Trial`] is all that a whole program is given in a test, over a source and a sink in memory. A [`Census`] holds threads where they
//! have to meet, and counts how often they passed. No program stands on this crate but in its tests.
//!
//! - `command_line`: an environment that has arguments alone
//! - `trial`: what a program is given where a test runs it whole
//! - `census`: a gate that counts the threads that work at once
#![tactic(auto)]

mod census;
mod command_line;
mod trial;

pub use census::Census;
pub use command_line::CommandLine;
pub use trial::Trial;
