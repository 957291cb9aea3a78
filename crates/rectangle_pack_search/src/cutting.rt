//! The pieces that a box leaves of a section, by the rule of packings: of six cuts the one whose
//! smallest piece is smallest, as a heuristic and `contains_smallest_box` say it. Each size that occurs
//! in several cuts is rated once.

use rectangle_pack_sections::box_size_heuristics::Heuristic;
use rectangle_pack_sections::width_height_depth::{WidthHeightDepth, any_size};

/// A piece with its rate.
#[derive(Debug, Clone, Copy)]
pub(crate) struct Rated {
    pub rate: u128,
    pub size: WidthHeightDepth,
}

fn rate_piece(heuristic: Heuristic, width: u32, height: u32, depth: u32) -> Rated {
    let size = any_size(width, height, depth);
    Rated {
        rate: heuristic.rate(size),
        size,
    }
}

// The pieces on one axis. They are named by what they have on the other two, in their order: what
// the box has, or all.
#[derive(Debug, Clone, Copy)]
struct Pieces {
    of_box: Rated,
    all_first: Rated,
    all_second: Rated,
    all: Rated,
}

impl Pieces {
    // Pieces of this width right of a box of this height and depth.
    fn right(
        heuristic: Heuristic,
        width: u32,
        size: WidthHeightDepth,
        held: WidthHeightDepth,
    ) -> Self {
        let (h, d) = (size.height(), size.depth());
        let of_box = rate_piece(heuristic, width, h, d);
        let all_first = rate_piece(heuristic, width, held.height(), d);
        if d == held.depth() {
            return Pieces::flat(of_box, all_first);
        }
        Pieces {
            of_box,
            all_first,
            all_second: rate_piece(heuristic, width, h, held.depth()),
            all: rate_piece(heuristic, width, held.height(), held.depth()),
        }
    }

    // Pieces of this height above a box of this width and depth.
    fn above(
        heuristic: Heuristic,
        height: u32,
        size: WidthHeightDepth,
        held: WidthHeightDepth,
    ) -> Self {
        let (w, d) = (size.width(), size.depth());
        let of_box = rate_piece(heuristic, w, height, d);
        let all_first = rate_piece(heuristic, held.width(), height, d);
        if d == held.depth() {
            return Pieces::flat(of_box, all_first);
        }
        Pieces {
            of_box,
            all_first,
            all_second: rate_piece(heuristic, w, height, held.depth()),
            all: rate_piece(heuristic, held.width(), height, held.depth()),
        }
    }

    // Pieces of this depth behind a box of this width and height.
    fn behind(
        heuristic: Heuristic,
        depth: u32,
        size: WidthHeightDepth,
        held: WidthHeightDepth,
    ) -> Self {
        let (w, h) = (size.width(), size.height());
        Pieces {
            of_box: rate_piece(heuristic, w, h, depth),
            all_first: rate_piece(heuristic, held.width(), h, depth),
            all_second: rate_piece(heuristic, w, held.height(), depth),
            all: rate_piece(heuristic, held.width(), held.height(), depth),
        }
    }

    // Where the box has all of the second axis.
    fn flat(of_box: Rated, all_first: Rated) -> Self {
        let (all_second, all) = (of_box, all_first);
        Pieces {
            of_box,
            all_first,
            all_second,
            all,
        }
    }
}

// The smallest and the second smallest rate of three pieces.
fn two_smallest(pieces: &[Rated; 3]) -> (u128, u128) {
    let [a, b, c] = pieces;
    let (a, b, c) = (a.rate, b.rate, c.rate);
    let (least, most) = (a.min(b), a.max(b));
    (least.min(c), least.max(most.min(c)))
}

// The better of two cuts; at ties the later one.
fn better(first: [Rated; 3], second: [Rated; 3]) -> [Rated; 3] {
    if two_smallest(&first) < two_smallest(&second) {
        first
    } else {
        second
    }
}

/// The pieces right of a box, above and behind it, that it leaves of a section of the size `held`. It
/// fits into the section.
pub(crate) fn cut_round(
    held: WidthHeightDepth,
    size: WidthHeightDepth,
    heuristic: Heuristic,
) -> [Rated; 3] {
    let width = held.width().saturating_sub(size.width());
    let height = held.height().saturating_sub(size.height());
    let depth = held.depth().saturating_sub(size.depth());
    let right = Pieces::right(heuristic, width, size, held);
    let above = Pieces::above(heuristic, height, size, held);
    let behind = Pieces::behind(heuristic, depth, size, held);
    let best = better(
        [right.all, above.all_second, behind.of_box],
        [right.all_second, above.all, behind.of_box],
    );
    let best = better(best, [right.all, above.of_box, behind.all_second]);
    let best = better(best, [right.all_first, above.of_box, behind.all]);
    let best = better(best, [right.of_box, above.all, behind.all_first]);
    better(best, [right.of_box, above.all_first, behind.all])
}

/// Three pieces by falling rate. Those with equal rates stay in their order.
pub(crate) fn by_falling_rate(pieces: [Rated; 3]) -> [Rated; 3] {
    let [first, second, third] = pieces;
    let (first, second) = falling(first, second);
    let (second, third) = falling(second, third);
    let (first, second) = falling(first, second);
    [first, second, third]
}

// Two pieces, the one with the greater rate first.
fn falling(first: Rated, second: Rated) -> (Rated, Rated) {
    if second.rate > first.rate {
        (second, first)
    } else {
        (first, second)
    }
}
