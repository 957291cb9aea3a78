//! Numbers drawn by chance, the same on every machine.
ghost use Rattle.std.specs.Prelude.{◌<◌};

/// Draws numbers. Equal seeds draw equal numbers.
#[derive(Debug, Clone, Copy)]
pub(crate) struct Chance {
    state: u64,
}

impl Chance {
    /// The numbers of a seed. The first ones of close seeds are close, so they are left out.
    pub(crate) fn new(seed: u64) -> Self {
        let mut chance = Chance { state: seed };
        for _ in 0..8 {
            chance.next();
        }
        chance
    }

    // A number of 31 bits.
    fn next(&mut self) -> u64 {
        let state = self.state.wrapping_mul(6364136223846793005);
        self.state = state.wrapping_add(1442695040888963407);
        self.state >> 33
    }

    /// A number below `end`.
    pub(crate) fn below(&mut self, end: usize) -> usize
        requires { 0 < end }
        ensures { result < end }
    {
        (self.next() % end as u64) as usize
    }

    /// True once in so many times.
    pub(crate) fn one_in(&mut self, times: usize) -> bool
        requires { 0 < times }
    {
        self.below(times) == 0
    }
}
