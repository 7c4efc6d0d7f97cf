// Numbers that look drawn by lot.
ghost use Rattle.std.specs.Prelude.{◌<◌};

#[derive(Clone, Copy)]
pub struct Random {
    state: u64,
}

impl Random {
    // The numbers that begin with a seed.
    pub fn of(seed: u64) -> Random {
        Random { state: seed }
    }

    // The next number below n.
    pub fn below(&mut self, n: u64) -> u64
        ensures { 0 < n → result < n }
    {
        self.state = self
            .state
            .wrapping_mul(6364136223846793005)
            .wrapping_add(1442695040888963407);
        (self.state >> 33) % n.max(1)
    }

    // One of some numbers; 0 where there are none.
    pub fn pick(&mut self, numbers: &[u64]) -> u64 {
        let i = self.below(numbers.len() as u64);
        numbers.get(i as usize).copied().unwrap_or(0)
    }
}
