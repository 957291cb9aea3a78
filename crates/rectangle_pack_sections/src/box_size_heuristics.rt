//! Heuristics that rate a size: functions, and their names.
ghost use Rattle.std.specs.Prelude.{◌≡◌, ◌+◌, ◌*◌, ◌^◌};
ghost use Rattle.rectangle_pack_sections.specs.Boxes.{volume_of, longest_side, middle_side, shortest_side};
ghost use Rattle.rectangle_pack_sections.specs.Heuristics.{in_turn};

mod laws;
pub mod named;

use crate::width_height_depth::WidthHeightDepth;
pub use laws::all_lists_each_heuristic_once;
pub use named::{Heuristic, UnknownHeuristic};

/// The volume of the box, in cells.
pub fn volume_heuristic(whd: WidthHeightDepth) -> u128
    // The answer is width times height times depth, and never wraps.
    ensures { result ≡ volume_of whd }
{
    whd.volume()
}

/// By height, then by width, then by depth.
pub fn height_heuristic(whd: WidthHeightDepth) -> u128
    // The answer is height * 2^64 + width * 2^32 + depth, and never wraps.
    //   [height_heuristic.width_is_forgotten]
    ensures { result ≡ whd.height * 2 ^ 64 + whd.width * 2 ^ 32 + whd.depth }
{
    in_turn(whd.height(), whd.width(), whd.depth())
}

/// By width, then by height, then by depth.
pub fn width_heuristic(whd: WidthHeightDepth) -> u128
    // The answer is width * 2^64 + height * 2^32 + depth, and never wraps.
    ensures { result ≡ whd.width * 2 ^ 64 + whd.height * 2 ^ 32 + whd.depth }
{
    in_turn(whd.width(), whd.height(), whd.depth())
}

/// By depth, then by width, then by height.
pub fn depth_heuristic(whd: WidthHeightDepth) -> u128
    // The answer is depth * 2^64 + width * 2^32 + height, and never wraps.
    ensures { result ≡ whd.depth * 2 ^ 64 + whd.width * 2 ^ 32 + whd.height }
{
    in_turn(whd.depth(), whd.width(), whd.height())
}

/// The sum of the three sides, in cells.
pub fn side_sum_heuristic(whd: WidthHeightDepth) -> u128
    // The answer is width plus height plus depth, and never wraps.
    ensures { result ≡ whd.width + whd.height + whd.depth }
{
    whd.width() as u128 + whd.height() as u128 + whd.depth() as u128
}

/// By the longest side, then by the middle one, then by the shortest.
pub fn longest_side_heuristic(whd: WidthHeightDepth) -> u128
    // The answer is the longest side * 2^64 + the middle one * 2^32 + the shortest one, and never
    //   wraps.
    ensures { result ≡
        longest_side whd * 2 ^ 64 + middle_side whd * 2 ^ 32 + shortest_side whd }
{
    let (shortest, middle, longest) = rising_sides(&whd);
    in_turn(longest, middle, shortest)
}

/// By the shortest side, then by the middle one, then by the longest.
pub fn shortest_side_heuristic(whd: WidthHeightDepth) -> u128
    // The answer is the shortest side * 2^64 + the middle one * 2^32 + the longest one, and never
    //   wraps.
    ensures { result ≡
        shortest_side whd * 2 ^ 64 + middle_side whd * 2 ^ 32 + longest_side whd }
{
    let (shortest, middle, longest) = rising_sides(&whd);
    in_turn(shortest, middle, longest)
}

/// Height times depth: the area of the box as one sees it along the x axis, in cells.
pub fn side_area_heuristic(whd: WidthHeightDepth) -> u128
    // The answer is height times depth, and never wraps.
    ensures { result ≡ whd.height * whd.depth }
{
    whd.height() as u128 * whd.depth() as u128
}

// Three numbers as one: the first counts most, then the second, then the third.
fn in_turn(first: u32, second: u32, third: u32) -> u128
    ensures { result ≡ in_turn first second third }
{
    first as u128 * (1 << 64) + second as u128 * (1 << 32) + third as u128
}

// The sides of a size, the shortest first.
fn rising_sides(whd: &WidthHeightDepth) -> (u32, u32, u32)
    ensures shortest { result.0 ≡ shortest_side whd.now }
    ensures middle { result.1 ≡ middle_side whd.now }
    ensures longest { result.2 ≡ longest_side whd.now }
{
    let (w, h, d) = (whd.width(), whd.height(), whd.depth());
    (w.min(h).min(d), middle_side(whd), w.max(h).max(d))
}

/// The side that is neither the longest nor the shortest, when the three are put in order.
pub fn middle_side(whd: &WidthHeightDepth) -> u32
    ensures { result ≡ middle_side whd.now }
{
    let (w, h) = (whd.width(), whd.height());
    w.min(h).max(w.max(h).min(whd.depth()))
}
