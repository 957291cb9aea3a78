//! Boxes of one cell that fill bins of one size.

/// Bins of one size, one cell deep, and as many boxes of one cell as these have cells. The ids of
/// the bins and the numbers of the boxes begin at 0.
#[derive(Clone, Copy)]
pub struct Units {
    pub bins: u32,
    pub width: u32,
    pub height: u32,
    pub boxes: u32,
}

impl Units {
    /// How many cells a bin has.
    pub fn cells(&self) -> u32 {
        self.width.saturating_mul(self.height)
    }

    /// The bin of the box of this number: in the order of their numbers the boxes fill one bin after
    /// another.
    pub fn bin_of(&self, number: u32) -> u32 {
        number / self.cells().max(1)
    }
}

/// Few boxes, many boxes, and many boxes in many bins.
pub fn cases() -> &'static [Units] {
    const CASES: &[Units] = &[
        Units {
            bins: 1,
            width: 20,
            height: 20,
            boxes: 400,
        },
        Units {
            bins: 1,
            width: 100,
            height: 100,
            boxes: 10000,
        },
        Units {
            bins: 2000,
            width: 5,
            height: 1,
            boxes: 10000,
        },
    ];
    CASES
}
