// Calls that are counted, some of which fail.
ghost use Rattle.std.specs.Prelude.{◌≡◌};
ghost use Rattle.mk_outside.specs.Counts.{Rose};
ghost use Rattle.mk_outside.specs.Calls.{before_calls, fails_next, after_call, after_fault};

use mk_text::Listed;
use std::marker::Model;

/// The numbers of the calls that fail, counted from 1.
pub type CallNumbers = Listed<u64>;

/// How many calls were made, how many of them failed, and which ones are to fail.
#[derive(Debug, Drop)]
pub struct Calls {
    failing: CallNumbers,
    made: u64,
    faults: u64,
}

impl Model for Calls {
    ghost use Rattle.mk_outside.specs.Calls.{CallState};

    ghost Value = { CallState };

    ghost view = { λ c. record { failing = c.failing; made = c.made; faults = c.faults } };
}

impl Calls {
    pub fn new(failing: CallNumbers) -> Calls
        ensures { result ≡ before_calls failing }
    {
        Calls {
            failing,
            made: 0,
            faults: 0,
        }
    }

    /// Counts a call, and says whether it is one of those that fail.
    pub fn begin(&mut self) -> bool
        ensures fails { result ≡ fails_next self.old }
        ensures counted { self.new ≡ after_call self.old }
    {
        self.made = self.made.saturating_add(1);
        self.failing.as_slice().contains(&self.made)
    }

    /// Counts a fault.
    pub fn fault(&mut self)
        ensures counted { self.new ≡ after_fault self.old }
        ensures rose { Rose self.old.faults self.new.faults }
    {
        self.faults = self.faults.saturating_add(1);
    }
}
