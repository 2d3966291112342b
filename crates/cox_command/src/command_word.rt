//! The table of command words.
ghost use Rattle.std.specs.Prelude.{◌≡◌};
ghost use Rattle.cox_command.specs.CommandWord.{command_text, command_word_of};

use crate::{EntryKind, NoWord, OneWord, RowKind, TwoWord};

/// The commands, by their first token.
#[derive(Clone, Copy, Debug, Eq, PartialEq)]
pub enum CommandWord {
    /// `type`
    Named,
    /// `matrix`
    Matrix,
    /// `quit`
    Quit,
    /// `jobs`
    Jobs,
    /// A command with one word.
    One(OneWord),
    /// A command with two words.
    Two(TwoWord),
    /// A command without arguments, on the whole group.
    Plain(NoWord),
    /// `work`
    Work,
}

/// All commands.
const COMMANDS: &[CommandWord] = &[
    CommandWord::Named,
    CommandWord::Matrix,
    CommandWord::Quit,
    CommandWord::Jobs,
    CommandWord::One(OneWord::Compute),
    CommandWord::One(OneWord::Length),
    CommandWord::One(OneWord::Inverse),
    CommandWord::One(OneWord::Descent),
    CommandWord::One(OneWord::Coatoms),
    CommandWord::One(OneWord::Betti),
    CommandWord::One(OneWord::OfRow(RowKind::Klbasis)),
    CommandWord::One(OneWord::OfRow(RowKind::Ihbetti)),
    CommandWord::One(OneWord::OfRow(RowKind::Extremals)),
    CommandWord::One(OneWord::Cert),
    CommandWord::One(OneWord::Module),
    CommandWord::Two(TwoWord::Inorder),
    CommandWord::Two(TwoWord::Interval),
    CommandWord::Two(TwoWord::Rpol),
    CommandWord::Two(TwoWord::OfEntry(EntryKind::Pol)),
    CommandWord::Two(TwoWord::OfEntry(EntryKind::Mu)),
    CommandWord::Two(TwoWord::Invpol),
    CommandWord::Plain(NoWord::Lwgraph),
    CommandWord::Plain(NoWord::Rwgraph),
    CommandWord::Plain(NoWord::Lcells),
    CommandWord::Plain(NoWord::Rcells),
    CommandWord::Plain(NoWord::Lrcells),
    CommandWord::Work,
];

impl CommandWord {
    /// The word that it begins with.
    fn text(self) -> &'static [u8]
        ensures { result.now ≡ command_text self }
    {
        match self {
            CommandWord::Named => b"type",
            CommandWord::Matrix => b"matrix",
            CommandWord::Quit => b"quit",
            CommandWord::Jobs => b"jobs",
            CommandWord::One(OneWord::Compute) => b"compute",
            CommandWord::One(OneWord::Length) => b"length",
            CommandWord::One(OneWord::Inverse) => b"inverse",
            CommandWord::One(OneWord::Descent) => b"descent",
            CommandWord::One(OneWord::Coatoms) => b"coatoms",
            CommandWord::One(OneWord::Betti) => b"betti",
            CommandWord::One(OneWord::OfRow(RowKind::Klbasis)) => b"klbasis",
            CommandWord::One(OneWord::OfRow(RowKind::Ihbetti)) => b"ihbetti",
            CommandWord::One(OneWord::OfRow(RowKind::Extremals)) => b"extremals",
            CommandWord::One(OneWord::Cert) => b"cert",
            CommandWord::One(OneWord::Module) => b"module",
            CommandWord::Two(TwoWord::Inorder) => b"inorder",
            CommandWord::Two(TwoWord::Interval) => b"interval",
            CommandWord::Two(TwoWord::Rpol) => b"rpol",
            CommandWord::Two(TwoWord::OfEntry(EntryKind::Pol)) => b"pol",
            CommandWord::Two(TwoWord::OfEntry(EntryKind::Mu)) => b"mu",
            CommandWord::Two(TwoWord::Invpol) => b"invpol",
            CommandWord::Plain(NoWord::Lwgraph) => b"lwgraph",
            CommandWord::Plain(NoWord::Rwgraph) => b"rwgraph",
            CommandWord::Plain(NoWord::Lcells) => b"lcells",
            CommandWord::Plain(NoWord::Rcells) => b"rcells",
            CommandWord::Plain(NoWord::Lrcells) => b"lrcells",
            CommandWord::Work => b"work",
        }
    }
}

/// The command that a token names: the one whose word it is.
pub fn command_word(token: &[u8]) -> Option<CommandWord>
    ensures { result ≡ command_word_of token.now }
{
    COMMANDS
        .iter()
        .copied()
        .find(|command| token == command.text())
}
