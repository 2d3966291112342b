//! The laws above both programs: what is proved of answers, of whole runs and of certificates from the definitions alone.
//!
//! It stands above the crates of both programs, and none of them needs it: `cox_shell` has the run over a script, and `cox_cert` the check
//! of a certificate.
//!
//! - `laws`: what each command is answered; a script has exactly one answer, whatever the number of workers, and what is due to be written
//!   is a prefix of it; a block in a list is answered as it is alone; what `cert` answers is a proof, and a check of it says so; one script
//!   with its answer, and values of the definitions in small groups
#![tactic(auto)]

pub mod laws;
