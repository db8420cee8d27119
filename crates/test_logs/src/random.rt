//! Random numbers, the same in each run.
ghost use Rattle.std.specs.Prelude.{◌<◌};

/// A source of random numbers: xorshift64 (Marsaglia, "Xorshift RNGs", 2003).
#[derive(Drop)]
pub struct Generator {
    state: u64,
}

impl Generator {
    /// The numbers from a seed that is not 0.
    pub fn new(seed: u64) -> Generator {
        Generator { state: seed }
    }

    /// The next number, below the bound.
    pub fn below(&mut self, bound: u32) -> u32
        requires { 0 < bound }
        ensures { result < bound }
    {
        self.state ^= self.state << 13;
        self.state ^= self.state >> 7;
        self.state ^= self.state << 17;
        (self.state % bound as u64) as u32
    }
}
