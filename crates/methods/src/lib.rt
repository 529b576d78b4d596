// The zone of a cluster, by value. The definitions of the methods stand in specs/, the histories with known marks in proofs/.
#![tactic(auto)]

ghost use Rattle.std.specs.Prelude.{◌≡◌};
ghost use Rattle.methods.specs.Zones.{low, high, forward};

// A zone, from the smallest finish and the largest start of its cluster.
#[derive(Clone, Copy)]
pub struct Zone {
    pub finish: u64,
    pub start: u64,
}

impl Zone {
    pub fn low(self) -> u64
        ensures { result ≡ low self }
    {
        self.finish.min(self.start)
    }

    pub fn high(self) -> u64
        ensures { result ≡ high self }
    {
        self.finish.max(self.start)
    }

    // Whether the zone is forward; else it is backward.
    pub fn forward(self) -> bool
        ensures { result ≡ forward self }
    {
        self.finish < self.start
    }
}
