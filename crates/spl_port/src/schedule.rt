ghost use Rattle.std.specs.Prelude.{◌≡◌, ◌≤◌};

use crate::calls::CallNumbers;
use std::marker::Model;

/// Which calls of something in memory are to fail, and how many were made and failed.
///
/// Calls are numbered from 0 in the order in which they are made. Both counts saturate at 2^64 - 1.
#[derive(Debug, Drop)]
pub(crate) struct Schedule {
    failing: CallNumbers,
    calls: u64,
    faults: u64,
}

impl Model for Schedule {
    ghost use Rattle.spl_port.specs.Plan.{Plan};

    ghost Value = { Plan };

    ghost view = { λ s. record { failing = s.failing; calls = s.calls; faults = s.faults } };
}

impl Schedule {
    ghost use Rattle.spl_port.specs.Plan.{fails, after_call, plan_of};

    pub(crate) fn new(failing: Vec<u64>) -> Schedule
        ensures { result ≡ plan_of failing.items }
    {
        Schedule {
            failing: failing.into(),
            calls: 0,
            faults: 0,
        }
    }

    /// Whether the next call is to fail.
    pub(crate) fn fails(&self) -> bool
        ensures { result ≡ fails self.now }
    {
        self.failing.lists(self.calls)
    }

    /// Counts a call, and a fault where it failed.
    pub(crate) fn count(&mut self, failed: bool)
        ensures after { self.new ≡ after_call self.old failed }
        ensures never_falls { self.old.faults ≤ self.new.faults }
    {
        self.calls = self.calls.saturating_add(1);
        if failed {
            self.faults = self.faults.saturating_add(1);
        }
    }
}
