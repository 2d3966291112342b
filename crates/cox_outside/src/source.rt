//! Where bytes come from.

ghost use Rattle.std.specs.Prelude.{◌≡◌, ◌<◌, length};
ghost use Rattle.std.specs.Io.KnownBytes.{prepend_known, IsAtEnd};
ghost use Rattle.cox_outside.specs.Supply.{Supply, SourceCause};
ghost use Rattle.cox_outside.specs.SourceRead.{GotFits, got_bytes, got_count, got_failed};

/// What a read gave.
#[derive(Clone, Copy, Debug, PartialEq, Eq)]
pub enum Got {
    /// So many bytes, at least one, at the beginning of the buffer.
    Bytes(usize),
    /// No byte is left.
    End,
    /// The read failed and took nothing.
    Failed,
}

impl Got {
    /// How many bytes it gave.
    pub fn count(self) -> usize
        ensures { result ≡ got_count self }
    {
        match self {
            Got::Bytes(count) => count,
            Got::End | Got::Failed => 0,
        }
    }
}

/// A supply of bytes.
pub trait Source {
    /// The bytes left, if it tells them, the count of its faults, and whether it never fails.
    ghost seen: { Self → Supply };

    /// Reads some bytes into the beginning of the buffer. The count of faults rises by one exactly where it fails.
    fn read(&mut self, into: &mut [u8]) -> Got
        requires { 0 < length into.old }
        ensures count { GotFits result (length into.old) }
        ensures bytes { (seen self.old).left ≡ prepend_known (got_bytes result into.new) (seen self.new).left }
        ensures end { result ≡ Got.End → IsAtEnd (seen self.old).left }
        ensures cause { SourceCause (seen self.old) (seen self.new) (got_failed result) };
}
