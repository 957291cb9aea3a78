//! What tries are compared by.

/// What is less is better, but for the squares.
#[derive(Debug, Clone, Copy)]
pub(crate) struct Score {
    /// The cells of the groups that no bin takes.
    pub left: u128,
    /// What the bins cost that get groups.
    pub cost: u128,
    /// The squares of the parts of bins that are filled, added up: of two packings that use as many
    /// bins, the one with more in its fuller bins is nearer to one bin less.
    pub squares: u64,
}

impl Score {
    /// Nothing is placed or left.
    pub(crate) const NONE: Score = Score {
        left: 0,
        cost: 0,
        squares: 0,
    };

    /// Whether it is better than the other.
    pub(crate) fn is_better(&self, other: &Score) -> bool {
        if self.left != other.left {
            return self.left < other.left;
        }
        if self.cost != other.cost {
            return self.cost < other.cost;
        }
        self.squares > other.squares
    }

    /// With a bin more, in which these of its cells are filled.
    pub(crate) fn with_bin(&self, filled: u128, cells: u128, cost: u64) -> Score {
        let part = part_filled(filled, cells);
        Score {
            left: self.left,
            cost: self.cost.saturating_add(u128::from(cost)),
            squares: self.squares.saturating_add(part.saturating_mul(part)),
        }
    }

    /// With a group more that is left.
    pub(crate) fn with_left(&self, cells: u128) -> Score {
        Score {
            left: self.left.saturating_add(cells),
            cost: self.cost,
            squares: self.squares,
        }
    }
}

// The whole, where parts of bins are counted.
pub(crate) const WHOLE: u64 = 1 << 20;

// Which part of the cells is filled.
pub(crate) fn part_filled(filled: u128, cells: u128) -> u64 {
    let parts = filled.saturating_mul(u128::from(WHOLE));
    match parts.checked_div(cells) {
        Some(part) => u64::try_from(part).unwrap_or(WHOLE),
        None => WHOLE,
    }
}
