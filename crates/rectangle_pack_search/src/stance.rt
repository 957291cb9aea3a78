//! How boxes stand that may be turned.

use crate::chance::Chance;
use rectangle_pack_bounds::turning::Turns;
use rectangle_pack_sections::width_height_depth::{WidthHeightDepth, any_size};

/// In which way boxes are turned for a try.
#[derive(Debug, Clone, Copy, PartialEq)]
pub(crate) enum Stance {
    /// As they stand.
    AsTheyStand,
    /// As wide as they can be.
    Lying,
    /// As high as they can be.
    Standing,
    /// As deep as they can be.
    Deep,
}

/// Whether a box may be turned at all.
pub(crate) fn may_turn(turns: Turns) -> bool {
    turns.about_x || turns.about_y || turns.about_z
}

// Height and depth change places.
fn about_x(size: WidthHeightDepth) -> WidthHeightDepth {
    any_size(size.width(), size.depth(), size.height())
}

// Width and depth change places.
fn about_y(size: WidthHeightDepth) -> WidthHeightDepth {
    any_size(size.depth(), size.height(), size.width())
}

// Width and height change places.
fn about_z(size: WidthHeightDepth) -> WidthHeightDepth {
    any_size(size.height(), size.width(), size.depth())
}

impl Stance {
    /// One of them; most often boxes stay as they stand.
    pub(crate) fn draw(chance: &mut Chance) -> Self {
        match chance.below(6) {
            0 | 1 => Stance::Lying,
            2 => Stance::Standing,
            3 => Stance::Deep,
            _ => Stance::AsTheyStand,
        }
    }

    /// How a box stands in this stance that stands in this size.
    pub(crate) fn turned(self, size: WidthHeightDepth, turns: Turns) -> WidthHeightDepth {
        match (turns.about_x, turns.about_y, turns.about_z) {
            (false, false, false) => size,
            (true, false, false) => self.better(size, about_x(size)),
            (false, true, false) => self.better(size, about_y(size)),
            (false, false, true) => self.better(size, about_z(size)),
            _ => self.best(size),
        }
    }

    // What it looks at of a size: the first number counts most.
    fn key(self, size: WidthHeightDepth) -> (u32, u32) {
        match self {
            Stance::AsTheyStand => (0, 0),
            Stance::Lying => (size.width(), size.height()),
            Stance::Standing => (size.height(), size.width()),
            Stance::Deep => (size.depth(), size.width()),
        }
    }

    // The one of two sizes that is more as this stance has it.
    fn better(self, size: WidthHeightDepth, other: WidthHeightDepth) -> WidthHeightDepth {
        if self.key(other) > self.key(size) {
            other
        } else {
            size
        }
    }

    // The size that is as this stance has it, of all in which the sides change places.
    fn best(self, size: WidthHeightDepth) -> WidthHeightDepth {
        let size = self.better(size, about_z(size));
        let size = self.better(size, about_y(size));
        let size = self.better(size, about_x(size));
        self.better(size, about_z(size))
    }
}

/// A size, turned about one of the axes about which it may be.
pub(crate) fn turned_by_chance(
    size: WidthHeightDepth,
    turns: Turns,
    chance: &mut Chance,
) -> WidthHeightDepth {
    let axis = chance.below(3);
    if turns.about_x && (axis == 0 || !turns.about_y && !turns.about_z) {
        about_x(size)
    } else if turns.about_y && (axis == 1 || !turns.about_z) {
        about_y(size)
    } else if turns.about_z {
        about_z(size)
    } else {
        size
    }
}
