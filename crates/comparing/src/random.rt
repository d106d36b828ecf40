// Numbers that look random, the same at every run.
ghost use Rattle.std.specs.Prelude.{◌-◌, ◌≤◌};

// Each number drawn changes the state; the first state is the seed.
#[derive(Drop)]
pub struct Random {
    pub state: u64,
}

impl Random {
    // A number below `bound`; 0 where the bound is 0.
    pub fn below(&mut self, bound: usize) -> usize
        ensures { result ≤ bound - 1 }
    {
        let mut x = self.state;
        x ^= x << 13;
        x ^= x >> 7;
        x ^= x << 17;
        self.state = x;
        ((x >> 11) as usize).checked_rem(bound).unwrap_or(0)
    }

    pub fn once_in(&mut self, turns: usize) -> bool {
        self.below(turns) == 0
    }
}
