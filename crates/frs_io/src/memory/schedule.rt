ghost use Rattle.std.specs.Prelude.{◌≡◌, ◌↔◌, IsErr, Contains, MatchResult};
ghost use Rattle.frs_io.specs.Causes.{raised, HasCause};

use crate::Failed;

/// Which calls on an object are to fail, and how many were made and failed.
#[derive(Drop)]
pub struct Schedule {
    /// How many calls were made.
    pub calls: u64,
    /// The numbers of the calls that are to fail. The first call is number 1.
    pub failing: Vec<u64>,
    /// How many calls failed.
    pub faults: u64,
}

impl Schedule {
    /// No call was made yet.
    pub fn new(failing: Vec<u64>) -> Schedule
        ensures calls { result.calls ≡ 0 }
        ensures failing { result.failing.items ≡ failing.items }
        ensures faults { result.faults ≡ 0 }
    {
        Schedule {
            calls: 0,
            failing,
            faults: 0,
        }
    }

    /// Counts a call, which fails where it is to.
    pub fn call(&mut self) -> Result<(), Failed>
        ensures fails { IsErr result ↔ Contains self.old.failing.items (raised self.old.calls) }
        ensures calls { self.new.calls ≡ raised self.old.calls }
        ensures failing { self.new.failing.items ≡ self.old.failing.items }
        ensures faults { MatchResult result
            (λ _. self.new.faults ≡ self.old.faults)
            (λ _. self.new.faults ≡ raised self.old.faults) }
        ensures cause { HasCause self.old.faults self.new.faults result }
    {
        self.calls = self.calls.saturating_add(1);
        if self.failing.contains(&self.calls) {
            self.faults = self.faults.saturating_add(1);
            return Err(Failed);
        }
        Ok(())
    }
}
