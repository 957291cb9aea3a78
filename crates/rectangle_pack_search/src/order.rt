//! The orders in which a try takes groups.

use crate::chance::Chance;
use rectangle_pack_sections::box_size_heuristics::Heuristic;
use rectangle_pack_sections::width_height_depth::WidthHeightDepth;

// Weights have so many bits, and factors twelve, so that their product has less than 64.
const WEIGHT: u64 = (1 << 51) - 1;

// Two numbers as one: the first counts most.
fn in_turn(first: u32, second: u32) -> u64 {
    (u64::from(first) << 19) | u64::from(second.min((1 << 19) - 1))
}

/// By how much a group counts in an order by this heuristic, whose boxes have these sizes.
pub(crate) fn weight_of(heuristic: Heuristic, boxes: &[WidthHeightDepth]) -> u64 {
    let mut sum = 0u64;
    for size in boxes {
        sum = sum.saturating_add(weight(heuristic, *size));
    }
    sum
}

// By how much a box counts.
fn weight(heuristic: Heuristic, size: WidthHeightDepth) -> u64 {
    let (w, h, d) = (size.width(), size.height(), size.depth());
    match heuristic {
        Heuristic::Volume => u64::try_from(size.volume()).unwrap_or(WEIGHT),
        Heuristic::Height => in_turn(h, w.max(d)),
        Heuristic::Width => in_turn(w, h.max(d)),
        Heuristic::Depth => in_turn(d, w.max(h)),
        Heuristic::SideSum => u64::from(w) + u64::from(h) + u64::from(d),
        Heuristic::LongestSide => in_turn(w.max(h).max(d), w.min(h).max(w.max(h).min(d))),
        Heuristic::ShortestSide => in_turn(w.min(h).max(w.max(h).min(d)), w.max(h).max(d)),
        Heuristic::SideArea => u64::from(h) * u64::from(d),
    }
}

/// An order by a heuristic, in which chance changes weights.
#[derive(Debug, Clone, Copy)]
pub(crate) struct Noise {
    // A weight counts up to so many 1024ths of it more.
    most: usize,
}

impl Noise {
    /// None.
    pub(crate) const NONE: Noise = Noise { most: 0 };

    /// Up to a little more than a half, or for what grows as the square of sides as much on each.
    pub(crate) fn draw(heuristic: Heuristic, chance: &mut Chance) -> Self {
        let level = chance.below(4);
        let most = match heuristic {
            Heuristic::Volume | Heuristic::SideArea => [0, 358, 842, 1494],
            _ => [0, 166, 358, 582],
        };
        Noise { most: most[level] }
    }

    /// A weight as it counts.
    pub(crate) fn heard(self, weight: u64, chance: &mut Chance) -> u64 {
        let more = if self.most == 0 {
            0
        } else {
            chance.below(self.most)
        };
        weight
            .min(WEIGHT)
            .saturating_mul(1024u64.saturating_add(more as u64))
    }
}
