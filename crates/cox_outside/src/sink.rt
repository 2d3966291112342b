//! Where bytes go.

ghost use Rattle.std.specs.Prelude.{◌≡◌, ◌<◌, length, take, IfSome};
ghost use Rattle.cox_outside.specs.Outlet.{Outlet, Writes, SinkCause};
ghost use Rattle.cox_outside.specs.SinkWrite.{TookFits, took_count, took_failed};

/// What a write took.
#[derive(Clone, Copy, Debug, PartialEq, Eq)]
pub enum Took {
    /// So many bytes, at least one, the first of those given.
    Bytes(usize),
    /// The write failed and took nothing.
    Failed,
}

/// An outlet for bytes.
pub trait Sink {
    /// The bytes written and the room left, if it tells them, and the count of its faults.
    ghost seen: { Self → Outlet };

    /// Writes some of these bytes, the first. The count of faults rises by one exactly where it fails.
    fn write(&mut self, bytes: &[u8]) -> Took
        requires { 0 < length bytes.now }
        ensures count { TookFits result (length bytes.now) }
        ensures puts { Writes (take (took_count result) bytes.now) (seen self.old) (seen self.new) }
        ensures full { result ≡ Took.Failed → IfSome (seen self.old).room (λ left. left ≡ 0) }
        ensures cause { SinkCause (seen self.old) (seen self.new) (took_failed result) };
}
