//! Which calls of a source or a sink in memory fail, by their numbers.
ghost use Rattle.std.specs.Prelude.{◌≡◌, ◌+◌, ◌-◌, ◌^◌, ◌&&◌, min, nat_eq, nat_lt, if◌then◌else◌};
ghost use Rattle.std.specs.List.{list_any};

/// Which calls fail, and what was counted so far.
#[derive(Drop)]
pub(crate) struct Plan {
    /// The numbers of the calls that fail, counted from 1.
    pub(crate) failing: Vec<u32>,
    /// How many calls there were, up to the greatest `u32`.
    pub(crate) calls: u32,
    /// How many of them failed, up to the greatest `u64`.
    pub(crate) faults: u64,
}

impl Plan {
    pub(crate) fn new(failing: Vec<u32>) -> Plan
        ensures failing { result.failing ≡ failing }
        ensures calls { result.calls ≡ 0 }
        ensures faults { result.faults ≡ 0 }
    {
        Plan {
            failing,
            calls: 0,
            faults: 0,
        }
    }

    /// Whether the next call fails.
    fn is_listed(&self) -> bool
        ensures { result ≡ (nat_lt self.now.calls (2 ^ 32 - 1) && list_any (nat_eq (self.now.calls + 1)) self.now.failing.items) }
    {
        self.calls < u32::MAX && self.failing.contains(&(self.calls + 1))
    }

    /// Counts a call, and says whether it fails.
    pub(crate) fn call(&mut self) -> bool
        ensures fails { result ≡ (nat_lt self.old.calls (2 ^ 32 - 1) && list_any (nat_eq (self.old.calls + 1)) self.old.failing.items) }
        ensures failing { self.new.failing ≡ self.old.failing }
        ensures calls { self.new.calls ≡ min (self.old.calls + 1) (2 ^ 32 - 1) }
        ensures faults { self.new.faults ≡ (if result then min (self.old.faults + 1) (2 ^ 64 - 1) else self.old.faults) }
    {
        let fails = self.is_listed();
        self.calls = self.calls.saturating_add(1);
        if fails {
            self.faults = self.faults.saturating_add(1);
        }
        fails
    }
}
