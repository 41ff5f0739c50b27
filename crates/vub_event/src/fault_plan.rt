ghost use Rattle.std.specs.Prelude.{◌≡◌, ◌^◌, ◌<◌, [], false, if◌then◌else◌};
ghost use Rattle.vub_base.specs.Causes.{one_more, is_listed};

/// Which calls of a host are to fail, and how many have failed.
#[derive(Debug, Drop)]
pub struct FaultPlan {
    /// The numbers of the calls that are to fail; the first call has number 0.
    pub calls: Vec<u64>,
    /// How many calls were made; it stays at 2^64 - 1.
    pub made: u64,
    /// How many calls failed; it stays at 2^64 - 1.
    pub faults: u64,
}

impl FaultPlan {
    /// No call was made yet, and those with these numbers are to fail.
    pub fn new(calls: Vec<u64>) -> FaultPlan
        ensures calls { result.calls.items ≡ calls.items }
        ensures made { result.made ≡ 0 }
        ensures faults { result.faults ≡ 0 }
    {
        FaultPlan {
            calls,
            made: 0,
            faults: 0,
        }
    }

    /// Counts a call, and says whether it is to fail.
    pub fn strikes(&mut self) -> bool
        ensures answer { result ≡ is_listed self.old.calls.items self.old.made }
        ensures sound { self.old.calls.items ≡ [] → result ≡ false }
        ensures calls { self.new.calls.items ≡ self.old.calls.items }
        ensures small { self.old.faults < 2 ^ 64 }
        ensures made { self.new.made ≡ one_more self.old.made }
        ensures faults { self.new.faults ≡ (if result then one_more self.old.faults else self.old.faults) }
    {
        let strikes = self.calls.contains(&self.made);
        let faults = self.faults;
        self.made = self.made.saturating_add(1);
        if strikes {
            self.faults = faults.saturating_add(1);
        }
        strikes
    }
}
