//! How a check ends.
ghost use Rattle.std.specs.Prelude.{◌≡◌};
ghost use Rattle.cox_cert.specs.Checks.{check_code_of, status_text};

/// Why a text proves nothing: the first of these that applies.
#[derive(Clone, Copy, Debug, PartialEq, Eq)]
pub enum Cause {
    /// The lines are those of no certificate.
    Grammar,
    /// The element is not given by its normal form, or that has more than `MAX_DIFFERENCE` letters.
    Top,
    /// The words are not the elements below it in ShortLex order.
    Interval,
    /// A coefficient or a degree is too large.
    Size,
    /// The polynomials are not the row of the element.
    Row,
}

impl Cause {
    /// What is written where this is the first cause that applies.
    fn text(self) -> &'static [u8]
        ensures { result.now ≡ status_text (CheckStatus.No self) }
    {
        match self {
            Cause::Grammar => b"no 1\n",
            Cause::Top => b"no 2\n",
            Cause::Interval => b"no 3\n",
            Cause::Size => b"no 4\n",
            Cause::Row => b"no 5\n",
        }
    }
}

/// How a check ends.
#[derive(Clone, Copy, Debug, PartialEq, Eq)]
pub enum CheckStatus {
    /// The text proves that its polynomials are the row of its element.
    Yes,
    /// It does not.
    No(Cause),
    /// Words follow the program's name. The usage line is written.
    Usage,
    /// A read failed. Nothing is written.
    ReadFault,
    /// A write failed. A prefix of what is due is written.
    WriteFault,
    /// Memory ran out. Nothing is written.
    NoMemory,
    /// There were more bytes than may be read. Nothing is written.
    InputLimit,
}

impl CheckStatus {
    /// The number that the program ends with.
    pub fn code(self) -> u8
        ensures { result ≡ check_code_of self }
    {
        match self {
            CheckStatus::Yes => 0,
            CheckStatus::No(_) => 1,
            CheckStatus::Usage => 2,
            CheckStatus::ReadFault => 3,
            CheckStatus::WriteFault => 4,
            CheckStatus::NoMemory => 5,
            CheckStatus::InputLimit => 6,
        }
    }

    /// What is written of it where no write fails: one line, or nothing.
    pub fn text(self) -> &'static [u8]
        ensures { result.now ≡ status_text self }
    {
        match self {
            CheckStatus::Yes => b"yes\n",
            CheckStatus::No(cause) => cause.text(),
            CheckStatus::Usage => b"usage: coxcheck\n",
            CheckStatus::ReadFault
            | CheckStatus::WriteFault
            | CheckStatus::NoMemory
            | CheckStatus::InputLimit => b"",
        }
    }
}
