//! Ratings: ways to rate lengths, so that no row of lengths is rated higher than a scale.
ghost use Rattle.std.specs.Prelude.{◌≡◌, ◌*◌, ◌<◌, ◌≤◌};
ghost use Rattle.rectangle_pack_bounds.specs.DualFeasible.{rounded as length_rounded, in_parts as length_in_parts, in_pieces as length_in_pieces};
ghost use Rattle.rectangle_pack_bounds.specs.Ratings.{IsUsable, rate_by, scale_by};

/// A way to rate lengths along an axis, with its number.
#[derive(Debug, Clone, Copy, PartialEq, Eq)]
pub enum Rating {
    /// A length below the number counts 0, one that leaves less than it counts as the whole axis,
    /// any other as it is. With 0 each length counts as it is.
    Rounded(u32),
    /// The axis is cut into one part more than the number, and a length counts by whole parts.
    InParts(u32),
    /// Twice how many pieces of this length a length takes away, above the half; below it, twice
    /// how many it holds.
    InPieces(u32),
}

impl Rating {
    /// The rate of a length along an axis so long.
    pub fn rate(self, along: u32, long: u32) -> u64
        requires { IsUsable self along }
        ensures { result ≡ rate_by self along long }
    {
        match self {
            Rating::Rounded(least) => rounded(along, least, long),
            Rating::InParts(parts) => in_parts(along, parts, long),
            Rating::InPieces(piece) => in_pieces(along, piece, long),
        }
    }

    /// The most that lengths that fit into an axis so long are rated, together.
    pub fn scale(self, along: u32) -> u64
        requires { IsUsable self along }
        ensures { result ≡ scale_by self along }
    {
        match self {
            Rating::Rounded(_) => along as u64,
            Rating::InParts(parts) => parts as u64 * along as u64,
            Rating::InPieces(piece) => 2 * (along / piece) as u64,
        }
    }
}

fn rounded(along: u32, least: u32, long: u32) -> u64
    requires { 2 * least ≤ along }
    ensures { result ≡ length_rounded along least long }
{
    if long < least {
        0
    } else if along - least < long {
        along as u64
    } else {
        long as u64
    }
}

fn in_parts(along: u32, parts: u32, long: u32) -> u64
    requires { 0 < along }
    ensures { result ≡ length_in_parts along parts long }
{
    let parts_of_it = (parts as u64 + 1) * long as u64;
    if parts_of_it % along as u64 == 0 {
        parts as u64 * long as u64
    } else {
        along as u64 * (parts_of_it / along as u64)
    }
}

fn in_pieces(along: u32, piece: u32, long: u32) -> u64
    requires { 0 < piece }
    ensures { result ≡ length_in_pieces along piece long }
{
    let twice = 2 * long as u64;
    if (along as u64) < twice {
        2 * (along / piece).saturating_sub(along.saturating_sub(long) / piece) as u64
    } else if twice < along as u64 {
        2 * (long / piece) as u64
    } else {
        (along / piece) as u64
    }
}
