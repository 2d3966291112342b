//! Which calls of a form in memory have to fail.

ghost use Rattle.std.specs.Prelude.{◌≡◌, ◌≤◌, true};
ghost use Rattle.cox_outside.specs.FaultCount.{count_after};
ghost use Rattle.cox_outside.specs.Calls.{no_calls, next_call, next_fails};

use std::marker::Model;

/// The numbers of the calls that have to fail, counted from 1, and the calls that were made.
#[derive(Drop)]
pub struct CallLog {
    fails: Vec<u64>,
    made: u128,
    failed: u64,
}

impl Model for CallLog {
    ghost use Rattle.cox_outside.specs.Calls.{Calls};

    ghost Value = { Calls };

    ghost view = { λ s. record { fails = s.fails.items; made = s.made; failed = s.failed } };
}

impl CallLog {
    /// No call was made yet.
    pub fn new(fails: Vec<u64>) -> CallLog
        ensures { result ≡ no_calls fails.items }
    {
        CallLog {
            fails,
            made: 0,
            failed: 0,
        }
    }

    /// Begins the next call, and says whether it has to fail.
    pub fn begin(&mut self) -> bool
        ensures fails { result ≡ next_fails self.old }
        ensures after { self.new ≡ record self.old { made = next_call self.old } }
    {
        self.made = self.made.saturating_add(1);
        let number = self.made;
        self.fails.iter().any(|call| u128::from(*call) == number)
    }

    /// The call that was begun fails.
    pub fn fail(&mut self)
        ensures after { self.new ≡ record self.old { failed = count_after true self.old.failed } }
        ensures later { self.old.failed ≤ self.new.failed }
    {
        self.failed = self.failed.saturating_add(1);
    }
}
