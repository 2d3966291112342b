//! The command `coxeter`, as `clap` is told it.
ghost use Rattle.std.specs.Prelude.{◌≡◌, IfOk, false};
ghost use Rattle.clap.specs.Words.{rule_of, app_of, with_rule};
ghost use Rattle.cox_options.specs.Command.{number_rule, coxeter_app};

use crate::options::{
    DEFAULT_WORKERS_TEXT, MAX_COEF, MAX_COEF_TEXT, MAX_CONTEXT, MAX_CONTEXT_TEXT, MAX_ROOTS,
    MAX_ROOTS_TEXT, MAX_WORKERS,
};
use clap::builder::ValueParser;
use clap::{Arg, ArgAction, Command};
use std::alloc::{AllocError, Global};

/// The option `--name` with one number from 1 to `most`, and the number that `default` writes where it is not given.
fn number_option<'a>(alloc: Global, name: &'a str, most: u64, default: &'a str) -> Arg<'a>
    ensures rule { rule_of result ≡ number_rule (record { name = name.entry.now; most = most; default = default.entry.now }) }
    ensures local { result.global ≡ false }
{
    Arg::new(alloc, name)
        .long(name)
        .action(ArgAction::Set)
        .value_parser(ValueParser::unsigned(1, most))
        .default_value(default)
}

/// The command with that option as well.
fn with_number<'a>(
    alloc: Global,
    command: Command<'a>,
    name: &'a str,
    most: u64,
    default: &'a str,
) -> Result<Command<'a>, AllocError>
    ensures { IfOk result (λ more. app_of more ≡ with_rule (app_of command.entry)
        (number_rule (record { name = name.entry.now; most = most; default = default.entry.now }))) }
{
    command.arg(number_option(alloc, name, most, default))
}

/// The command `coxeter`: its options, and neither a flag for help nor one for the version.
pub fn command<'a>(alloc: Global) -> Result<Command<'a>, AllocError>
    ensures { IfOk result (λ command. app_of command ≡ coxeter_app) }
{
    let bare = Command::new(alloc, "coxeter").disable_help_flag(true);
    let one = with_number(
        alloc,
        bare,
        "context",
        u64::from(MAX_CONTEXT),
        MAX_CONTEXT_TEXT,
    )?;
    let two = with_number(alloc, one, "roots", u64::from(MAX_ROOTS), MAX_ROOTS_TEXT)?;
    let three = with_number(alloc, two, "coef", MAX_COEF, MAX_COEF_TEXT)?;
    with_number(
        alloc,
        three,
        "workers",
        u64::from(MAX_WORKERS),
        DEFAULT_WORKERS_TEXT,
    )
}
