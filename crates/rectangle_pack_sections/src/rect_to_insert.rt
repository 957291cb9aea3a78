//! What a caller gives of a box: its size.
ghost use Rattle.std.specs.Prelude.{◌≡◌};

use crate::width_height_depth::{WidthHeightDepth, any_size};
use std::marker::Model;

/// A box that is to be placed, by its size in cells. Any size will do, also an empty one.
#[derive(Debug, Clone, Copy, PartialEq)]
pub struct RectToInsert {
    whd: WidthHeightDepth,
    allow_global_x_axis_rotation: bool,
    allow_global_y_axis_rotation: bool,
    allow_global_z_axis_rotation: bool,
}

// Boxes are never turned: the flags are kept and not read.
impl Model for RectToInsert {
    ghost use Rattle.std.specs.Prelude.{◌≡◌, false};
    ghost use Rattle.rectangle_pack_sections.specs.Boxes.{Size};

    ghost Value = { Size };

    ghost view = { λ a. a.whd };

    ghost invariant = { λ a.
        (a.allow_global_x_axis_rotation ≡ false) ×
        (a.allow_global_y_axis_rotation ≡ false) ×
        (a.allow_global_z_axis_rotation ≡ false) };

    ghost inverse = { λ s.
        record {
          whd = s;
          allow_global_x_axis_rotation = false;
          allow_global_y_axis_rotation = false;
          allow_global_z_axis_rotation = false;
        } };

    ghost use Rattle.std.proofs.Common.{ap, sym, ◌∙◌};

    ghost inverse_ok = { λ a h.
        ap
        (λ r.
        record a {
          allow_global_x_axis_rotation = r;
          allow_global_y_axis_rotation = false;
          allow_global_z_axis_rotation = false;
        })
        (sym h.0)
        ∙ ap
        (λ r.
        record a {
          allow_global_y_axis_rotation = r;
          allow_global_z_axis_rotation = false;
        })
        (sym h.1)
        ∙ ap (λ r. record a { allow_global_z_axis_rotation = r }) (sym h.2) };
}

impl RectToInsert {
    /// A box of this width, height and depth.
    pub fn new(width: u32, height: u32, depth: u32) -> Self
        ensures { result ≡ record { width = width; height = height; depth = depth } }
    {
        RectToInsert {
            whd: any_size(width, height, depth),
            allow_global_x_axis_rotation: false,
            allow_global_y_axis_rotation: false,
            allow_global_z_axis_rotation: false,
        }
    }

    /// The extent on the x axis, in cells.
    pub fn width(&self) -> u32
        ensures { result ≡ self.now.width }
    {
        self.whd.width()
    }

    /// The extent on the y axis, in cells.
    pub fn height(&self) -> u32
        ensures { result ≡ self.now.height }
    {
        self.whd.height()
    }

    /// The extent on the z axis, in cells.
    pub fn depth(&self) -> u32
        ensures { result ≡ self.now.depth }
    {
        self.whd.depth()
    }
}

impl From<RectToInsert> for WidthHeightDepth {
    // The answer is the size of the box.
    ghost from_gives = { λ rect whd. whd ≡ rect };

    fn from(rect: RectToInsert) -> Self {
        rect.whd
    }
}
