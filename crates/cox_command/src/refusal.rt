//! Refusals, and their numbers.
ghost use Rattle.std.specs.Prelude.{◌≡◌};
ghost use Rattle.cox_command.specs.RefusalNumber.{refusal_number};

/// Why a line is refused.
#[derive(Clone, Copy, Debug, Drop, Eq, PartialEq)]
pub enum Refusal {
    /// The first token is no command.
    UnknownCommand,
    /// The number of arguments is not the command's.
    WrongCount,
    /// A number argument is no number, or is outside its range.
    WrongNumber,
    /// There is no such type.
    UnknownType,
    /// A label is not 0, 2, 3, 4 or 6.
    WrongLabel,
    /// The command needs a group, and none is set.
    NoGroup,
    /// A word has a piece that is no letter of the group.
    ForeignLetter,
    /// A word has more pieces than words may have letters.
    LongWord,
    /// The line is longer than lines may be.
    LongLine,
    /// The line has a byte that no line may have.
    ForeignByte,
    /// The group has more small roots than the session's limit.
    ManyRoots,
    /// The interval from the identity to w, or the whole group, has more elements than the
    /// session's limit; or that interval has more than a certificate.
    LargeInterval,
    /// A row that the answer needs has a coefficient, or a value of mu, above a limit; of `invpol` also an inverse polynomial.
    LargeRow,
    /// `rpol`: y is below w, and their lengths differ by more than is worked with. `cert`: w has
    /// more letters than a certificate.
    FarApart,
    /// A list of blocks has too many blocks, or too many lines.
    LongList,
}

impl Refusal {
    /// The number that the line `error N` tells.
    pub fn number(self) -> u8
        ensures { result ≡ refusal_number self }
    {
        match self {
            Refusal::UnknownCommand => 10,
            Refusal::WrongCount => 11,
            Refusal::WrongNumber => 12,
            Refusal::UnknownType => 13,
            Refusal::WrongLabel => 14,
            Refusal::NoGroup => 15,
            Refusal::ForeignLetter => 16,
            Refusal::LongWord => 17,
            Refusal::LongLine => 18,
            Refusal::ForeignByte => 19,
            Refusal::ManyRoots => 21,
            Refusal::LargeInterval => 31,
            Refusal::LargeRow => 32,
            Refusal::FarApart => 34,
            Refusal::LongList => 35,
        }
    }
}
