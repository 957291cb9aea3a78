//! Choices that look random, the same in each run.

/// What choices are drawn from.
#[derive(Drop)]
pub struct Dice {
    state: u64,
}

impl Dice {
    /// The choices from this seed on.
    pub fn new(seed: u64) -> Dice {
        Dice { state: seed }
    }

    // A number of 31 bits.
    fn draw(&mut self) -> u64 {
        self.state = self
            .state
            .wrapping_mul(6364136223846793005)
            .wrapping_add(1442695040888963407);
        self.state >> 33
    }

    /// A number of eight bits.
    pub fn byte(&mut self) -> u8 {
        (self.draw() % 256) as u8
    }

    /// A number below this one, if it is not 0.
    pub fn below(&mut self, count: u64) -> u64 {
        self.draw() % count.max(1)
    }

    /// An index below this one, if it is not 0.
    pub fn index(&mut self, count: usize) -> usize {
        self.draw() as usize % count.max(1)
    }

    /// One of these, or `otherwise` where there are none.
    pub fn one_of<T: Copy>(&mut self, choices: &[T], otherwise: T) -> T {
        let index = self.index(choices.len());
        choices.get(index).copied().unwrap_or(otherwise)
    }
}
