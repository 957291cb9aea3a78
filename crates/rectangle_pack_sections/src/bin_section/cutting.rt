//! The pieces that are cut off round a box.
ghost use Rattle.std.specs.Prelude.{◌≡◌, ◌∷◌, []};
ghost use Rattle.rectangle_pack_sections.specs.Boxes.{Size};

use crate::bin_section::BinSection;
use crate::width_height_depth::any_size;

// A number for each of the axes x, y and z.
pub(crate) type PerAxis = (u32, u32, u32);

// The extents of a piece on the two axes other than its own.
pub(crate) type Face = (u32, u32);

// The pieces right, above and behind. On its own axis each begins at the end of the box and has
// what is left beyond it; on the others it begins at the corner and has the extents of its face.
pub(crate) fn pieces_round(
    corner: PerAxis,
    end: PerAxis,
    rest: PerAxis,
    right: Face,
    above: Face,
    behind: Face,
) -> [BinSection; 3]
    ensures { let right_size : Size = record { width = rest.0; height = right.0; depth = right.1 }
        in
        let above_size : Size = record { width = above.0; height = rest.1; depth = above.1 } in
        let behind_size : Size = record { width = behind.0; height = behind.1; depth = rest.2 } in
        result ≡
        record { x = end.0; y = corner.1; z = corner.2; whd = right_size }
        ∷ record { x = corner.0; y = end.1; z = corner.2; whd = above_size }
        ∷ record { x = corner.0; y = corner.1; z = end.2; whd = behind_size } ∷ [] }
{
    [
        section(end.0, corner.1, corner.2, rest.0, right.0, right.1),
        section(corner.0, end.1, corner.2, above.0, rest.1, above.1),
        section(corner.0, corner.1, end.2, behind.0, behind.1, rest.2),
    ]
}

fn section(x: u32, y: u32, z: u32, width: u32, height: u32, depth: u32) -> BinSection
    ensures { let whd : Size = record { width = width; height = height; depth = depth } in
        result ≡ record { x = x; y = y; z = z; whd = whd } }
{
    BinSection::new(x, y, z, any_size(width, height, depth))
}
