//! How a run ends.

ghost use Rattle.std.specs.Prelude.{◌≡◌};
ghost use Rattle.cox_shell.specs.ExitCode.{code_of};
ghost use Rattle.cox_shell.specs.Stopping.{status_of};

/// How a run ends.
#[derive(Clone, Copy, Debug, PartialEq, Eq)]
pub enum Status {
    /// The input was read to its end or to a line that ends the run, and no line was refused.
    Done,
    /// The same, and at least one line was refused.
    Refused,
    /// The arguments are wrong. The usage line is written.
    Usage,
    /// A read failed. The answers to the lines that were read whole are written, and the answer to a list that was open.
    ReadFault,
    /// A write failed. A prefix of the answers to the lines that were read is written.
    WriteFault,
    /// Memory ran out. A prefix of the answers to the lines that were read is written.
    NoMemory,
    /// There were more bytes than may be read. The answers to the lines that end by LF within the
    /// limit are written, and the answer to a list that was open.
    InputLimit,
}

impl Status {
    /// The number that the program ends with, from 0 in the order above.
    pub fn code(self) -> u8
        ensures { result ≡ code_of self }
    {
        self as u8
    }
}

/// Why no reply to a next line was written.
#[derive(Clone, Copy, Debug, PartialEq, Eq)]
pub enum Stopped {
    /// The input has ended.
    End,
    /// A read failed.
    ReadFault,
    /// A write of the reply failed.
    WriteFault,
    /// There was no memory for the reply. A prefix of it may be written.
    NoMemory,
    /// There are more bytes than may be read.
    InputLimit,
}

impl Stopped {
    /// The status of a run that stopped for this reason, by whether a line was refused before.
    pub fn status(self, refused: bool) -> Status
        ensures { result ≡ status_of self refused }
    {
        match self {
            Stopped::End if refused => Status::Refused,
            Stopped::End => Status::Done,
            Stopped::ReadFault => Status::ReadFault,
            Stopped::WriteFault => Status::WriteFault,
            Stopped::NoMemory => Status::NoMemory,
            Stopped::InputLimit => Status::InputLimit,
        }
    }
}
