//! Which calls of an object in memory are to fail.
ghost use Rattle.std.specs.Prelude.{◌≡◌, ◌≤◌};
ghost use Rattle.gate_outside.specs.FaultPlans.{fresh, fails, after_call, after_fault, after_failed_call};

use std::marker::Model;

/// The numbers of the calls that are to fail, from 1, beside how many calls were made and how often
/// one failed. Both counts stay at their last value.
#[derive(Drop)]
pub struct FaultPlan {
    failing: Vec<u64>,
    calls: u64,
    faults: u64,
}

impl Model for FaultPlan {
    ghost use Rattle.gate_outside.specs.FaultPlans.{Plan};

    ghost Value = { Plan };

    ghost view = { λ p. record {
      failing = p.failing.items;
      calls = p.calls;
      faults = p.faults;
    } };
}

impl FaultPlan {
    /// A plan by the numbers of the calls that are to fail; the first call has the number 1.
    pub fn new(failing: Vec<u64>) -> FaultPlan
        ensures { result ≡ fresh failing.items }
    {
        FaultPlan {
            failing,
            calls: 0,
            faults: 0,
        }
    }

    /// Whether the next call is to fail.
    pub fn fails(&self) -> bool
        ensures { result ≡ fails self.now }
    {
        self.failing.contains(&self.calls.saturating_add(1))
    }

    /// How often a call failed.
    pub fn faults(&self) -> u64
        ensures { result ≡ self.now.faults }
    {
        self.faults
    }

    /// Counts a call that did not fail.
    pub fn count_call(&mut self)
        ensures { self.new ≡ after_call self.old }
    {
        self.calls = self.calls.saturating_add(1);
    }

    /// Counts a call that failed.
    pub fn count_failed_call(&mut self)
        ensures after { self.new ≡ after_failed_call self.old }
        ensures later { self.old.faults ≤ self.new.faults }
    {
        self.count_call();
        self.count_fault();
    }

    /// Counts a fault that no call made.
    pub fn count_fault(&mut self)
        ensures after { self.new ≡ after_fault self.old }
        ensures later { self.old.faults ≤ self.new.faults }
    {
        self.faults = self.faults.saturating_add(1);
    }
}
