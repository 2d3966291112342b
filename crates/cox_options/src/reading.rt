//! Arguments, and the options that they give.
ghost use Rattle.std.specs.Prelude.{◌≡◌, ◌≢◌, Err, IfOk, IsErrAnd, IsOkAnd, OnOk, Some, codes, map, option_map, pos};
ghost use Rattle.clap.specs.Words.{found_of, kind_of, one_text};
ghost use Rattle.clap.specs.declared.error.kind.ErrorKind.TheVariants.{OutOfMemory};
ghost use Rattle.cox_options.specs.Arguments.{IsTaken, IsUsage, decimal_value, given_number};
ghost use Rattle.cox_options.specs.Found.{HasNumber};
ghost use Rattle.cox_options.specs.declared.options.TheConstants.{MAX_CONTEXT, MAX_ROOTS, MAX_COEF, MAX_WORKERS};
ghost use Rattle.cox_options.specs.declared.reading.OptionFault.TheVariants.{NoMemory, Usage};

use crate::definition::command;
use crate::options::Options;
use clap::ArgMatches;
use clap::error::ErrorKind;
use std::alloc::Global;
use thiserror::Error;

/// Why arguments give no options.
#[derive(Clone, Copy, Debug, Drop, PartialEq, Eq, Error)]
pub enum OptionFault {
    /// The command does not take them: an unknown option, an option twice or without its number, a number outside its range, or an
    /// argument that belongs to no option.
    #[error("the arguments give no options")]
    Usage,
    /// Memory has run out.
    #[error("out of memory")]
    NoMemory,
}

/// The options that the arguments `words` give. The first is the program's name; with no other each option has its default.
///
/// For example `["coxeter", "--context", "23"]` gives the context 23, and so does `["coxeter", "--context=23"]`. The number of roots is
/// `MAX_ROOTS` in both, coefficients may go up to `MAX_COEF`, and there is one worker. A number is written in decimal digits, where a plus
/// may stand first. `Usage` comes only where the definition of the command refuses the arguments, and `Ok` only where it does not;
/// `NoMemory` may come at any.
pub fn read(alloc: Global, words: &[&str]) -> Result<Options, OptionFault>
    ensures taken { OnOk result (IsTaken (map (λ word. word.now) words.now)) }
    ensures context { IfOk result (λ options. given_number (codes "context") (map (λ word. word.now) words.now) ≡ Some options.context) }
    ensures roots { IfOk result (λ options. given_number (codes "roots") (map (λ word. word.now) words.now) ≡ Some options.roots) }
    ensures coef { IfOk result (λ options. option_map pos (given_number (codes "coef") (map (λ word. word.now) words.now))
        ≡ Some options.coef) }
    ensures workers { IfOk result (λ options. given_number (codes "workers") (map (λ word. word.now) words.now) ≡ Some options.workers) }
    ensures usage { result ≡ Err Usage → IsUsage (map (λ word. word.now) words.now) }
{
    let Ok(command) = command(alloc) else {
        return Err(OptionFault::NoMemory);
    };
    options_by(command.try_get_matches_from(words))
}

/// Arguments that give no options, to stand for those that are no text.
pub fn wrong_arguments() -> [&'static str; 2]
    ensures { IsUsage (map (λ argument. argument.now) result) }
{
    ["coxeter", "?"]
}

/// What the answer of a parse gives: the options by what it found, or the fault by its error. Memory is out only where the parse says so.
fn options_by(answer: Result<ArgMatches<'_>, clap::Error>) -> Result<Options, OptionFault>
    requires context { IfOk answer (λ matches. HasNumber (found_of matches) (codes "context") MAX_CONTEXT) }
    requires roots { IfOk answer (λ matches. HasNumber (found_of matches) (codes "roots") MAX_ROOTS) }
    requires coef { IfOk answer (λ matches. HasNumber (found_of matches) (codes "coef") MAX_COEF) }
    requires workers { IfOk answer (λ matches. HasNumber (found_of matches) (codes "workers") MAX_WORKERS) }
    ensures context { IfOk result (λ options. IsOkAnd answer.entry (λ matches.
        option_map decimal_value (one_text (found_of matches) (codes "context")) ≡ Some options.context)) }
    ensures roots { IfOk result (λ options. IsOkAnd answer.entry (λ matches.
        option_map decimal_value (one_text (found_of matches) (codes "roots")) ≡ Some options.roots)) }
    ensures coef { IfOk result (λ options. IsOkAnd answer.entry (λ matches.
        option_map pos (option_map decimal_value (one_text (found_of matches) (codes "coef"))) ≡ Some options.coef)) }
    ensures workers { IfOk result (λ options. IsOkAnd answer.entry (λ matches.
        option_map decimal_value (one_text (found_of matches) (codes "workers")) ≡ Some options.workers)) }
    ensures usage { result ≡ Err Usage → IsErrAnd answer.entry (λ error. kind_of error ≢ OutOfMemory) }
    ensures memory { result ≡ Err NoMemory → IsErrAnd answer.entry (λ error. kind_of error ≡ OutOfMemory) }
{
    match answer {
        Ok(matches) => Ok(options_in(&matches)),
        Err(error) => Err(fault_of(&error)),
    }
}

/// The options by what a parse of the command found.
fn options_in(matches: &ArgMatches<'_>) -> Options
    requires context { HasNumber (found_of matches.now) (codes "context") MAX_CONTEXT }
    requires roots { HasNumber (found_of matches.now) (codes "roots") MAX_ROOTS }
    requires coef { HasNumber (found_of matches.now) (codes "coef") MAX_COEF }
    requires workers { HasNumber (found_of matches.now) (codes "workers") MAX_WORKERS }
    ensures context { option_map decimal_value (one_text (found_of matches.now) (codes "context")) ≡ Some result.context }
    ensures roots { option_map decimal_value (one_text (found_of matches.now) (codes "roots")) ≡ Some result.roots }
    ensures coef { option_map pos (option_map decimal_value (one_text (found_of matches.now) (codes "coef"))) ≡ Some result.coef }
    ensures workers { option_map decimal_value (one_text (found_of matches.now) (codes "workers")) ≡ Some result.workers }
{
    Options {
        context: matches.get_one::<u64>("context").unwrap() as u32,
        roots: matches.get_one::<u64>("roots").unwrap() as u32,
        coef: matches.get_one::<u64>("coef").unwrap() as i64,
        workers: matches.get_one::<u64>("workers").unwrap() as u32,
    }
}

/// Out of memory is told apart from the other errors of a parse.
fn fault_of(error: &clap::Error) -> OptionFault
    ensures usage { result ≡ Usage → kind_of error.now ≢ OutOfMemory }
    ensures memory { result ≡ NoMemory → kind_of error.now ≡ OutOfMemory }
{
    match error.kind() {
        ErrorKind::OutOfMemory => OptionFault::NoMemory,
        _ => OptionFault::Usage,
    }
}
