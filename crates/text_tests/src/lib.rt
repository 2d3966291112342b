//! Tests of what is read and written: checks of certificates, the words of `work`, options, texts of faults, and sources and sinks over
//! streams. There is no code here, only tests. They stand apart from the crates that they test, since a crate with tests is proved twice.
//! A law says that values which they compare are the same where `==` tells them to be equal. So no assertion passes by a `==` that is
//! always true.
//!
//! - `laws`: what `==` tells of the values that tests compare
//! - `certificates`: whole checks of `cox_cert`
//! - `commands`: the words that `work` of `cox_command` generates
//! - `options`: the options of `cox_options`
//! - `streams`: the sources and sinks of `cox_outside` over streams
//! - `faults`: the texts of faults
#![tactic(auto)]

#[cfg(test)]
mod certificates;
#[cfg(test)]
mod commands;
#[cfg(test)]
mod faults;
pub mod laws;
#[cfg(test)]
mod options;
#[cfg(test)]
mod streams;
