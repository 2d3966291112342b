//! The arguments that set a group.
ghost use Rattle.std.specs.Prelude.{◌≡◌, ◌≤◌, ℕ, Option, Some, None, map, length, IfSome, is_some, if◌then◌else◌};
ghost use Rattle.std.specs.List.{list_all};
ghost use Rattle.cox_tokens.specs.Number.{is_number, is_number_in, value_of};
ghost use Rattle.cox_command.specs.ParseContract.{ReadsArguments};
ghost use Rattle.cox_command.specs.declared.command_word.CommandWord.TheVariants.{Named, Matrix};

use crate::{Command, Refusal};
use arrayvec::ArrayVec;
use cox_base::{Coxeter, MAX_LABELS, MAX_RANK};
use cox_tokens::{Tokens, read_number, read_number_in};

/// The arguments of `type`: a letter and a number.
pub fn parse_type(arguments: Tokens) -> Result<Command, Refusal>
    ensures { (rank : Option ℕ) → ReadsArguments result Named arguments.entry rank }
{
    let Some((letter, number)) = arguments.both() else {
        return Err(Refusal::WrongCount);
    };
    let Some(n) = read_number(number) else {
        return Err(Refusal::WrongNumber);
    };
    let &[letter] = letter else {
        return Err(Refusal::UnknownType);
    };
    match Coxeter::named(letter, n) {
        Ok(group) => Ok(Command::Group(group)),
        Err(_) => Err(Refusal::UnknownType),
    }
}

/// The arguments of `matrix`: the rank, and the labels above the diagonal, row by row.
pub fn parse_matrix(mut arguments: Tokens) -> Result<Command, Refusal>
    ensures { (rank : Option ℕ) → ReadsArguments result Matrix arguments.entry rank }
{
    let Some(first) = arguments.take_next() else {
        return Err(Refusal::WrongCount);
    };
    let Some(n) = read_rank(first) else {
        return Err(Refusal::WrongNumber);
    };
    if !arguments.has_count(n * (n - 1) / 2) {
        return Err(Refusal::WrongCount);
    }
    let Some(labels) = read_numbers(arguments) else {
        return Err(Refusal::WrongNumber);
    };
    match Coxeter::of_labels(n, labels.as_slice()) {
        Ok(group) => Ok(Command::Group(group)),
        Err(_) => Err(Refusal::WrongLabel),
    }
}

/// A rank: a number from 1 to the greatest rank.
fn read_rank(token: &[u8]) -> Option<usize>
    ensures { result ≡ (if is_number_in 1 MAX_RANK token.now then Some (value_of token.now) else None) }
{
    let n = read_number_in(token, 1, MAX_RANK as u32)?;
    Some(n as usize)
}

/// The values of the tokens, if each is a number.
fn read_numbers(mut tokens: Tokens) -> Option<ArrayVec<u32, MAX_LABELS>>
    requires { length tokens ≤ MAX_LABELS }
    ensures values { IfSome result (λ values. values.items ≡ map value_of tokens.entry) }
    ensures numbers { is_some result ≡ list_all is_number tokens.entry }
{
    let mut values = ArrayVec::new();
    while let Some(token) = tokens.take_next() {
        values.push(read_number(token)?);
    }
    Some(values)
}
