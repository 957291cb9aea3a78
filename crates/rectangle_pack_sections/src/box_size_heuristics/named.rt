//! The heuristics by their names.
ghost use Rattle.std.specs.Prelude.{◌≡◌};
ghost use Rattle.rectangle_pack_sections.specs.Heuristics.{heuristic_text, rate_of};

use crate::box_size_heuristics::{
    depth_heuristic, height_heuristic, longest_side_heuristic, shortest_side_heuristic,
    side_area_heuristic, side_sum_heuristic, volume_heuristic, width_heuristic,
};
use crate::width_height_depth::WidthHeightDepth;
use std::error::Error;
use std::fmt;
use std::str::FromStr;

/// A heuristic, by its name: for a program that goes through all of them, keeps one in a setting,
/// or prints it. Where a closure is asked for, `|whd| heuristic.rate(whd)` is one. `Heuristic::ALL`
/// has all eight, in the order below.
#[derive(Debug, Clone, Copy, PartialEq, Eq)]
pub enum Heuristic {
    /// `volume_heuristic`, as text `volume`.
    Volume,
    /// `height_heuristic`, as text `height`.
    Height,
    /// `width_heuristic`, as text `width`.
    Width,
    /// `depth_heuristic`, as text `depth`.
    Depth,
    /// `side_sum_heuristic`, as text `side-sum`.
    SideSum,
    /// `longest_side_heuristic`, as text `longest-side`.
    LongestSide,
    /// `shortest_side_heuristic`, as text `shortest-side`.
    ShortestSide,
    /// `side_area_heuristic`, as text `side-area`.
    SideArea,
}

impl Heuristic {
    /// All heuristics that have a name.
    pub const ALL: [Heuristic; 8] = [
        Heuristic::Volume,
        Heuristic::Height,
        Heuristic::Width,
        Heuristic::Depth,
        Heuristic::SideSum,
        Heuristic::LongestSide,
        Heuristic::ShortestSide,
        Heuristic::SideArea,
    ];

    /// What the heuristic of this name rates the size by.
    pub fn rate(&self, whd: WidthHeightDepth) -> u128
        // The answer is that of the heuristic of this name.
        ensures { result ≡ rate_of self.now whd }
    {
        match self {
            Heuristic::Volume => volume_heuristic(whd),
            Heuristic::Height => height_heuristic(whd),
            Heuristic::Width => width_heuristic(whd),
            Heuristic::Depth => depth_heuristic(whd),
            Heuristic::SideSum => side_sum_heuristic(whd),
            Heuristic::LongestSide => longest_side_heuristic(whd),
            Heuristic::ShortestSide => shortest_side_heuristic(whd),
            Heuristic::SideArea => side_area_heuristic(whd),
        }
    }

    // The text of its name.
    fn text(&self) -> &'static str
        ensures { result.now ≡ heuristic_text self.now }
    {
        match self {
            Heuristic::Volume => "volume",
            Heuristic::Height => "height",
            Heuristic::Width => "width",
            Heuristic::Depth => "depth",
            Heuristic::SideSum => "side-sum",
            Heuristic::LongestSide => "longest-side",
            Heuristic::ShortestSide => "shortest-side",
            Heuristic::SideArea => "side-area",
        }
    }
}

impl fmt::Display for Heuristic {
    ghost use Rattle.std.specs.Prelude.{Some};
    ghost use Rattle.rectangle_pack_sections.specs.Heuristics.{heuristic_text};

    // What is printed is the text of the name, such as "height" for `Height`.
    ghost output = { λ h. Some (heuristic_text h) };

    fn fmt<W: fmt::Write>(&self, f: &mut fmt::Formatter<W>) -> fmt::Result {
        write!(f, "{}", self.text())
    }
}

/// A text that names no heuristic.
#[derive(Debug, Clone, Copy, PartialEq, Eq)]
pub struct UnknownHeuristic;

impl fmt::Display for UnknownHeuristic {
    ghost use Rattle.std.specs.Prelude.{Some, codes};

    // What is printed is "There is no heuristic of this name."
    ghost output = { λ _. Some (codes "There is no heuristic of this name.") };

    fn fmt<W: fmt::Write>(&self, f: &mut fmt::Formatter<W>) -> fmt::Result {
        write!(f, "There is no heuristic of this name.")
    }
}

impl Error for UnknownHeuristic {}

impl FromStr for Heuristic {
    type Err = UnknownHeuristic;

    ghost use Rattle.rectangle_pack_sections.specs.Heuristics.{IsNamed};

    // A text is parsed to a heuristic exactly where it is the text of its name; any other text is
    //   an error.
    ghost from_str_gives = { λ text answer. IsNamed text answer };

    fn from_str(text: &str) -> Result<Self, UnknownHeuristic> {
        match text {
            "volume" => Ok(Heuristic::Volume),
            "height" => Ok(Heuristic::Height),
            "width" => Ok(Heuristic::Width),
            "depth" => Ok(Heuristic::Depth),
            "side-sum" => Ok(Heuristic::SideSum),
            "longest-side" => Ok(Heuristic::LongestSide),
            "shortest-side" => Ok(Heuristic::ShortestSide),
            "side-area" => Ok(Heuristic::SideArea),
            _ => Err(UnknownHeuristic),
        }
    }
}
