//! How many polynomials were added up.
ghost use Rattle.std.specs.Prelude.{◌≡◌, ◌≤◌};
ghost use Rattle.cox_row_builder.specs.Counted.{counted};

use std::marker::Model;

/// How many polynomials were added up so far. It stands still at the end of its 64 bits.
#[derive(Drop)]
pub struct Steps {
    count: u64,
}

impl Model for Steps {
    ghost use Rattle.std.specs.Prelude.{ℕ};

    ghost Value = { ℕ };

    ghost view = { λ s. s.count };
}

impl Steps {
    /// None so far.
    pub fn new() -> Steps
        ensures { result ≡ 0 }
    {
        Steps { count: 0 }
    }

    /// How many there were.
    pub fn taken(&self) -> u64
        ensures { result ≡ self.now }
    {
        self.count
    }

    /// One more.
    pub fn take(&mut self)
        ensures one { self.new ≡ counted self.old 1 }
        ensures kept { self.old ≤ self.new }
    {
        self.count = self.count.saturating_add(1);
    }
}
