// The calls of an object in memory, and those that are to fail.
ghost use Rattle.std.specs.Prelude.{◌≡◌, ℕ, ◌==◌, ◌≤◌, List, IfOk};
ghost use Rattle.std.specs.List.{list_any};

use crate::Failed;
use std::alloc::{AllocError, Global};
use std::marker::Model;

/// The numbers of the calls that are to fail, counted from 1 over all calls of an object.
#[derive(Drop)]
pub struct Calls {
    numbers: Vec<u32>,
}

impl Model for Calls {
    ghost Value = { List ℕ };

    ghost view = { λ c. c.numbers.items };
}

impl Calls {
    pub fn new(alloc: Global, numbers: &[u32]) -> Result<Calls, AllocError>
        ensures { IfOk result (λ c. c ≡ numbers.now) }
    {
        Ok(Calls {
            numbers: Vec::from_slice(alloc, numbers)?,
        })
    }

    fn has(&self, number: u64) -> bool
        ensures { result ≡ list_any (λ n. n == number) self.now }
    {
        self.numbers.iter().any(|n| u64::from(*n) == number)
    }
}

/// The calls that an object has had: those that are to fail, how many were made, and how many failed.
#[derive(Drop)]
pub struct CallLog {
    fails: Calls,
    made: u64,
    faults: u64,
}

impl CallLog {
    ghost use Rattle.outside.specs.Outside.{next_count};
    ghost use Rattle.outside.specs.Calls.{is_to_fail};

    pub fn new(fails: Calls) -> CallLog
        ensures { result ≡ record { fails = fails; made = 0; faults = 0 } }
    {
        CallLog {
            fails,
            made: 0,
            faults: 0,
        }
    }

    /// Counts one more call, and answers whether it is to fail.
    pub fn count_call(&mut self) -> bool
        ensures answer { result ≡ is_to_fail self.old }
        ensures counted { self.new ≡ record {
          fails = self.old.fails;
          made = next_count self.old.made;
          faults = self.old.faults;
        } }
    {
        self.made = self.made.saturating_add(1);
        self.fails.has(self.made)
    }

    /// Counts a fault.
    pub fn count_fault(&mut self) -> Failed
        ensures later { self.old.faults ≤ self.new.faults }
        ensures counted { self.new ≡ record {
          fails = self.old.fails;
          made = self.old.made;
          faults = next_count self.old.faults;
        } }
    {
        self.faults = self.faults.saturating_add(1);
        Failed
    }
}
