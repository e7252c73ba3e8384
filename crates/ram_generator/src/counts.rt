// What a generated session counts.
ghost use Rattle.std.specs.Prelude.{◌≡◌, ◌^◌};
ghost use Rattle.ram_generator.specs.Counting.{AreBelow, Grows, none_counted};
ghost use Rattle.ram_generator.specs.Counting.{calls_added, flips_added, verdicts_added};

/// Finished calls, the stores of these and of cut calls, flips, and the boots' verdicts by their kind.
#[derive(Clone, Copy, Debug, PartialEq, Eq)]
pub struct Counts {
    pub calls: u128,
    pub stores: u128,
    pub flips: u128,
    pub as_told: u128,
    pub differs: u128,
}

impl Counts {
    pub fn none() -> Counts
        ensures { result ≡ none_counted }
    {
        Counts {
            calls: 0,
            stores: 0,
            flips: 0,
            as_told: 0,
            differs: 0,
        }
    }

    /// So many finished calls, and stores, more.
    pub fn add_calls(&mut self, calls: u64, stores: u64)
        requires { AreBelow self.old (2 ^ 32) }
        ensures added { self.new ≡ calls_added self.old calls stores }
        ensures grows { Grows self.old self.new 1 }
    {
        self.calls += u128::from(calls);
        self.stores += u128::from(stores);
    }

    /// So many flips more.
    pub fn add_flips(&mut self, flips: u64)
        requires { AreBelow self.old (2 ^ 32) }
        ensures added { self.new ≡ flips_added self.old flips }
        ensures grows { Grows self.old self.new 1 }
    {
        self.flips += u128::from(flips);
    }

    /// So many verdicts of each kind more.
    pub fn add_verdicts(&mut self, as_told: u64, differs: u64)
        requires { AreBelow self.old (2 ^ 32) }
        ensures added { self.new ≡ verdicts_added self.old as_told differs }
        ensures grows { Grows self.old self.new 1 }
    {
        self.as_told += u128::from(as_told);
        self.differs += u128::from(differs);
    }
}
