//! Where a box was placed.
ghost use Rattle.std.specs.Prelude.{◌≡◌};

use crate::bin_section::BinSection;
use crate::width_height_depth::WidthHeightDepth;
use std::marker::Model;

/// How a box is turned. Boxes are never turned, so it is always `ZeroDegrees`.
#[derive(Debug, Clone, Copy, PartialEq)]
pub enum RotatedBy {
    /// As the box was given.
    ZeroDegrees,
    /// By a quarter turn; never answered.
    NinetyDegrees,
}

/// Where a box stands in its bin: its corner and its size, in cells.
#[derive(Debug, Clone, Copy, PartialEq)]
pub struct PackedLocation {
    x: u32,
    y: u32,
    z: u32,
    whd: WidthHeightDepth,
    x_axis_rotation: RotatedBy,
    y_axis_rotation: RotatedBy,
    z_axis_rotation: RotatedBy,
}

impl Model for PackedLocation {
    ghost use Rattle.std.specs.Prelude.{◌≡◌};
    ghost use Rattle.rectangle_pack_sections.specs.Boxes.{Cuboid};

    ghost Value = { Cuboid };

    ghost use Rattle.rectangle_pack_sections.specs.declared.packed_location.RotatedBy.TheVariants.{ZeroDegrees};

    ghost view = { λ a. record { x = a.x; y = a.y; z = a.z; whd = a.whd } };

    ghost invariant = { λ a.
        (a.x_axis_rotation ≡ ZeroDegrees) ×
        (a.y_axis_rotation ≡ ZeroDegrees) ×
        (a.z_axis_rotation ≡ ZeroDegrees) };

    ghost inverse = { λ s.
        record {
          x = s.x;
          y = s.y;
          z = s.z;
          whd = s.whd;
          x_axis_rotation = ZeroDegrees;
          y_axis_rotation = ZeroDegrees;
          z_axis_rotation = ZeroDegrees;
        } };

    ghost use Rattle.std.proofs.Common.{ap, sym, ◌∙◌};

    ghost inverse_ok = { λ a h.
        ap
        (λ r.
        record a {
          x_axis_rotation = r;
          y_axis_rotation = ZeroDegrees;
          z_axis_rotation = ZeroDegrees;
        })
        (sym h.0)
        ∙ ap (λ r. record a { y_axis_rotation = r; z_axis_rotation = ZeroDegrees }) (sym h.1)
        ∙ ap (λ r. record a { z_axis_rotation = r }) (sym h.2) };
}

impl PackedLocation {
    /// The location with this corner and size; any numbers will do.
    pub fn new(x: u32, y: u32, z: u32, whd: WidthHeightDepth) -> Self
        ensures { result ≡ record { x = x; y = y; z = z; whd = whd } }
    {
        PackedLocation {
            x,
            y,
            z,
            whd,
            x_axis_rotation: RotatedBy::ZeroDegrees,
            y_axis_rotation: RotatedBy::ZeroDegrees,
            z_axis_rotation: RotatedBy::ZeroDegrees,
        }
    }

    /// The corner's place on the x axis.
    pub fn x(&self) -> u32
        ensures { result ≡ self.now.x }
    {
        self.x
    }

    /// The corner's place on the y axis.
    pub fn y(&self) -> u32
        ensures { result ≡ self.now.y }
    {
        self.y
    }

    /// The corner's place on the z axis.
    pub fn z(&self) -> u32
        ensures { result ≡ self.now.z }
    {
        self.z
    }

    /// The extent on the x axis, in cells.
    pub fn width(&self) -> u32
        ensures { result ≡ self.now.whd.width }
    {
        self.whd.width()
    }

    /// The extent on the y axis, in cells.
    pub fn height(&self) -> u32
        ensures { result ≡ self.now.whd.height }
    {
        self.whd.height()
    }

    /// The extent on the z axis, in cells.
    pub fn depth(&self) -> u32
        ensures { result ≡ self.now.whd.depth }
    {
        self.whd.depth()
    }
}

/// The box that stands at a location.
pub fn section_at(location: &PackedLocation) -> BinSection
    ensures { result ≡ location.now }
{
    BinSection::new(location.x, location.y, location.z, location.whd)
}
