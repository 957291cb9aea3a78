//! The axes of a bin.

/// An axis: `X` with widths, `Y` with heights, `Z` with depths.
#[derive(Debug, Clone, Copy, PartialEq)]
pub enum Axis {
    /// From left to right.
    X,
    /// From bottom to top.
    Y,
    /// From front to back.
    Z,
}
