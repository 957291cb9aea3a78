//! Boxes that may be turned.
ghost use Rattle.std.specs.Prelude.{◌≡◌, ◌||◌, true};
ghost use Rattle.std.specs.List.{list_any};
ghost use Rattle.rectangle_pack_bounds.specs.Bounds.{has_bin};
ghost use Rattle.rectangle_pack_bounds.specs.Turning.{about_x, fits_in, ways, ways_by};

use crate::ways::{about_x, about_y, about_z, fits_in};
use rectangle_pack_sections::width_height_depth::WidthHeightDepth;

/// About which axes a box may be turned, by quarters.
#[derive(Debug, Clone, Copy, PartialEq, Eq, Default)]
pub struct Turns {
    /// Whether height and depth may change places.
    pub about_x: bool,
    /// Whether width and depth may change places.
    pub about_y: bool,
    /// Whether width and height may change places.
    pub about_z: bool,
}

impl Turns {
    /// About no axis: the box stands as it is.
    pub const NONE: Turns = Turns {
        about_x: false,
        about_y: false,
        about_z: false,
    };

    /// About z alone, as a sprite on its page or a panel on its sheet.
    pub const FLAT: Turns = Turns {
        about_x: false,
        about_y: false,
        about_z: true,
    };
}

/// A box that may be turned: its size, and how.
#[derive(Debug, Clone, Copy, PartialEq)]
pub struct TurningBox {
    /// The size of the box as it is.
    pub whd: WidthHeightDepth,
    /// About which axes it may be turned.
    pub turns: Turns,
}

impl TurningBox {
    /// Whether the box fits into a bin of this size, in one of its ways.
    #[tactic(auto, unfolding(crate::specs::Turning::ways_by))]
    pub fn fits_in_bin(&self, bin: WidthHeightDepth) -> bool
        ensures { result ≡ list_any (fits_in bin) (ways self.now) }
    {
        let whd = self.whd;
        let Turns {
            about_x: x,
            about_y: y,
            about_z: z,
        } = self.turns;
        match (x, y, z) {
            (false, false, false) => fits_in(bin, whd),
            (true, false, false) => fits_about_x(bin, whd),
            (false, true, false) => fits_in(bin, whd) || fits_in(bin, about_y(whd)),
            (false, false, true) => fits_in(bin, whd) || fits_in(bin, about_z(whd)),
            _ => fits_in_any_order(bin, whd),
        }
    }

    /// Whether the box may stand in this size.
    #[tactic(auto, unfolding(crate::specs::Turning::ways_by))]
    pub fn may_stand_in(&self, size: WidthHeightDepth) -> bool
        ensures { result ≡ list_any (⟦<WidthHeightDepth as PartialEq>⟧.eq size) (ways self.now) }
    {
        let whd = self.whd;
        let Turns {
            about_x: x,
            about_y: y,
            about_z: z,
        } = self.turns;
        match (x, y, z) {
            (false, false, false) => size == whd,
            (true, false, false) => size == whd || size == about_x(whd),
            (false, true, false) => size == whd || size == about_y(whd),
            (false, false, true) => size == whd || size == about_z(whd),
            _ => is_in_any_order(size, whd),
        }
    }

    /// Whether one of the bins is large enough for the box, in one of its ways.
    pub fn has_bin(&self, bins: &[WidthHeightDepth]) -> bool
        ensures { result ≡ has_bin bins.now self.now }
    {
        bins.iter().any(|bin| self.fits_in_bin(*bin))
    }
}

// Whether a size fits into a bin as it is, or turned about x.
fn fits_about_x(bin: WidthHeightDepth, size: WidthHeightDepth) -> bool
    ensures { result ≡ (fits_in bin size || fits_in bin (about_x size)) }
{
    fits_in(bin, size) || fits_in(bin, about_x(size))
}

// Whether a size fits into a bin in one of the six orders of its numbers.
#[tactic(auto, unfolding(crate::specs::Turning::ways_by))]
fn fits_in_any_order(bin: WidthHeightDepth, size: WidthHeightDepth) -> bool
    ensures { result ≡ list_any (fits_in bin) (ways_by true true true size) }
{
    fits_about_x(bin, size) || fits_about_x(bin, about_y(size)) || fits_about_x(bin, about_z(size))
}

// Whether a size has the numbers of another one, in one of their six orders.
#[tactic(auto, unfolding(crate::specs::Turning::ways_by))]
fn is_in_any_order(size: WidthHeightDepth, whd: WidthHeightDepth) -> bool
    ensures { result ≡
        list_any (⟦<WidthHeightDepth as PartialEq>⟧.eq size) (ways_by true true true whd) }
{
    size == whd
        || size == about_x(whd)
        || size == about_y(whd)
        || size == about_z(whd)
        || size == about_x(about_z(whd))
        || size == about_z(about_x(whd))
}
