//! Free sections of a bin, and how a box is placed into one.
ghost use Rattle.std.specs.Prelude.{◌≡◌, ◌↔◌, ◌∷◌, IfOk, IsTrue};
ghost use Rattle.std.specs.Bool.{OnFalse};
ghost use Rattle.rectangle_pack_sections.specs.Boxes.{Cuboid, Holds, FitsU32, IsInside, SharesCell, AreApart, has_cells};
ghost use Rattle.rectangle_pack_sections.specs.Closures.{CanRate, CanCompare, MayCompare};
ghost use Rattle.rectangle_pack_sections.specs.Cuts.{placed, cuts, sizes_of};
ghost use Rattle.rectangle_pack_sections.specs.Choice.{IsAllowedCut};
ghost use Rattle.rectangle_pack_sections.specs.SmallestBox.{Rates, AreRates, smallest, second_smallest, IsSmallestOrder};
ghost use Rattle.rectangle_pack_sections.specs.Fitting.{IsFitAnswer};
ghost use Rattle.rectangle_pack_sections.specs.Counting.{Tiles, AreAllApart, MakeUp, HaveVolumeOf};
ghost use Rattle.rectangle_pack_sections.specs.Texts.{fitting_text};

mod cutting;
mod laws;

use crate::bin_section::cutting::pieces_round;
use crate::packed_location::PackedLocation;
use crate::rect_to_insert::RectToInsert;
use crate::span::spans;
use crate::width_height_depth::WidthHeightDepth;
pub use laws::{
    cell_test_is_membership, pieces_are_from_cuts, sections_are_ordered, sharing_is_symmetric,
    smallest_box_is_preorder,
};
use std::cmp::Ordering;
use std::error::Error;
use std::fmt;
use std::marker::Model;

/// Compares the pieces of two cuts: `Greater` where those of the first are better.
///
/// The better cut is the one whose smallest piece is smaller, as the heuristic says; at a tie the
/// one whose second smallest piece is smaller. The largest piece never decides. The caller sees to
/// it that the heuristic may be called on every size.
pub fn contains_smallest_box<H>(
    container1: [WidthHeightDepth; 3],
    container2: [WidthHeightDepth; 3],
    heuristic: &H,
) -> Ordering
where
    H: Fn(WidthHeightDepth) -> u128,
    // The heuristic may be called on every size, those with sides of 0 among them.
    requires { CanRate H.Fn heuristic.now }
    // With some answer of the heuristic on each of the six sizes: the result compares the smallest
    //   answer for the second triple with the smallest for the first; where they are equal, the
    //   second smallest ones. So `Greater` means that the first triple has the smaller one. The
    //   largest answer never decides. [contains_smallest_box.first_size_alone_decides]
    ensures { IsSmallestOrder (H.post heuristic.now) container1 container2 result }
{
    let (smallest1, second1) = two_smallest(container1, heuristic);
    let (smallest2, second2) = two_smallest(container2, heuristic);
    match smallest2.cmp(&smallest1) {
        Ordering::Equal => second2.cmp(&second1),
        order => order,
    }
}

// What the heuristic answers on a size.
fn rate<H>(size: WidthHeightDepth, heuristic: &H) -> u128
where
    H: Fn(WidthHeightDepth) -> u128,
    requires { CanRate H.Fn heuristic.now }
    ensures { H.post heuristic.now size result }
{
    heuristic(size)
}

// The smallest and the second smallest of what the heuristic answers on the three sizes.
fn two_smallest<H>(container: [WidthHeightDepth; 3], heuristic: &H) -> (u128, u128)
where
    H: Fn(WidthHeightDepth) -> u128,
    requires { CanRate H.Fn heuristic.now }
    ensures { (rates : Rates) ×
        AreRates (H.post heuristic.now) container rates ×
        (result.0 ≡ smallest rates) ×
        (result.1 ≡ second_smallest rates) }
{
    let [right, above, behind] = container;
    let (a, b, c) = (
        rate(right, heuristic),
        rate(above, heuristic),
        rate(behind, heuristic),
    );
    (a.min(b).min(c), a.min(b).max(a.max(b).min(c)))
}

/// A part of a bin: its corner and its size, in cells.
///
/// Sections are ordered by x, then by y, then by z, then by size.
#[derive(Debug, Clone, Copy, PartialEq, Eq, Default, PartialOrd, Ord)]
pub struct BinSection {
    x: u32,
    y: u32,
    z: u32,
    whd: WidthHeightDepth,
}

impl Model for BinSection {
    ghost use Rattle.rectangle_pack_sections.specs.Boxes.{Cuboid};

    ghost Value = { Cuboid };

    ghost view = { λ a. record { x = a.x; y = a.y; z = a.z; whd = a.whd } };

    ghost inverse = { λ s. record { x = s.x; y = s.y; z = s.z; whd = s.whd } };
}

/// Why a box was not placed into a section.
#[derive(Debug, PartialEq, Eq, Drop)]
pub enum BinSectionError {
    /// The box is wider than the section.
    PlacementWiderThanBinSection,
    /// The box is not wider, but taller than the section.
    PlacementTallerThanBinSection,
    /// The box is neither wider nor taller, but deeper than the section.
    PlacementDeeperThanBinSection,
}

impl BinSection {
    /// The section with this corner and size; any numbers will do.
    pub fn new(x: u32, y: u32, z: u32, whd: WidthHeightDepth) -> Self
        ensures { result ≡ record { x = x; y = y; z = z; whd = whd } }
    {
        BinSection { x, y, z, whd }
    }

    /// The corner's place on the x axis.
    pub fn x(&self) -> u32
        ensures { result ≡ self.now.x }
    {
        self.x
    }

    /// The corner's place on the y axis.
    pub fn y(&self) -> u32
        ensures { result ≡ self.now.y }
    {
        self.y
    }

    /// The corner's place on the z axis.
    pub fn z(&self) -> u32
        ensures { result ≡ self.now.z }
    {
        self.z
    }

    /// The size, in cells.
    pub fn whd(&self) -> WidthHeightDepth
        ensures { result ≡ self.now.whd }
    {
        self.whd
    }

    /// Places a box at the section's corner and cuts what is left of the section into three pieces,
    /// right of the box, above it and behind it; empty pieces are given too.
    ///
    /// Of the six ways to cut, the comparison chooses. It is shown the sizes of the pieces of two
    /// cuts and the heuristic, and answers `Greater` where the first cut is better.
    ///
    /// The caller sees to it that corner and size of the section add up to at most `u32::MAX` on
    /// each axis, and that the comparison may be called on all sizes. An error says on which axis
    /// the box is too large; no closure was asked then.
    ///
    /// ```
    /// let section = BinSection::new(0, 0, 0, WidthHeightDepth::new(100, 100, 1));
    /// let rect = RectToInsert::new(50, 90, 1);
    /// let (location, [right, above, behind]) = section.try_place(
    ///     &rect,
    ///     &contains_smallest_box,
    ///     &volume_heuristic,
    /// )?;
    /// assert_eq!(rt; (location.x(), location.y(), location.z()), (0, 0, 0));
    /// ```
    ///
    /// Right of the box and above it there are cells left, and none behind it.
    ///
    /// ```
    /// let beside = BinSection::new(50, 0, 0, WidthHeightDepth::new(50, 100, 1));
    /// let over = BinSection::new(0, 90, 0, WidthHeightDepth::new(50, 10, 1));
    /// assert_eq!(rt; [right, above], [beside, over]);
    /// assert_eq!(rt; behind.whd().volume(), 0);
    /// ```
    pub fn try_place<H, C>(
        &self,
        incoming: &RectToInsert,
        container_comparison_fn: &C,
        heuristic_fn: &H,
    ) -> Result<(PackedLocation, [BinSection; 3]), BinSectionError>
    where
        H: Fn(WidthHeightDepth) -> u128,
        C: Fn([WidthHeightDepth; 3], [WidthHeightDepth; 3], &H) -> Ordering,
        // On each axis the corner and the size of the section add up to at most `u32::MAX`.
        requires ends { FitsU32 self.now }
        // The comparison may be called on every two triples of sizes with this heuristic.
        requires comparable { CanCompare C.Fn container_comparison_fn.now heuristic_fn.now }
        // It succeeds exactly where no number of the box's size is greater than that of the
        //   section. Else the error names the first of width, height and depth that is greater.
        ensures fits { IsFitAnswer self.now incoming.now result }
        // Where it succeeds, the box stands at the section's corner, in its own size.
        ensures location { IfOk result (λ p. p.0 ≡ placed self.now incoming.now) }
        // Where it succeeds, the box and the three pieces fill each cell of the section exactly
        //   once, and no other cell. [pieces_round.piece_behind_is_dropped]
        ensures tiles { IfOk result (λ p. Tiles (p.0 ∷ p.1) self.now) }
        // Where it succeeds, no two of the box and the three pieces share a cell.
        //   [cuts.piece_above_overlaps_the_right_one]
        ensures apart { IfOk result (λ p. AreAllApart (p.0 ∷ p.1)) }
        // Where it succeeds, the volumes of the box and the three pieces add up to that of the
        //   section. [pieces_round.piece_behind_is_dropped]
        ensures volumes { IfOk result (λ p. HaveVolumeOf (p.0 ∷ p.1) self.now) }
        // Where it succeeds, a cell is in the section exactly where it is in the box or in one of
        //   the three pieces. [pieces_round.piece_behind_is_dropped]
        ensures make_up { IfOk result (λ p. MakeUp (p.0 ∷ p.1) self.now) }
        // Where it succeeds, the pieces are those of one of the six cuts round the box. Asked about
        //   this cut and any later one, the comparison may answer `Greater`. Where this cut is not
        //   the first, there is an earlier cut: asked about that and this one, it may answer `Less`
        //   or `Equal`. [place_held.last_cut_is_always_taken]
        // Where moreover all that the comparison may answer on these six cuts agrees with one total
        //   preorder, none of the six is greater than the cut of the pieces.
        //   [place_held.last_cut_is_always_taken]
        ensures pieces { IfOk result
            (λ p.
            IsAllowedCut (MayCompare C.Fn container_comparison_fn.now heuristic_fn.now) self.now
            incoming.now p.1) }
    {
        self.check_fit(incoming)?;
        Ok(place_held(self, incoming, container_comparison_fn, heuristic_fn))
    }

    /// Whether the two sections share a cell, for all numbers; an empty section shares none.
    #[tactic(auto, using(crate::proofs::lemmas::cuts::Boxes::sharing), unfolding(crate::specs::Boxes::start, crate::specs::Boxes::extent))]
    pub fn overlaps(&self, other: &BinSection) -> bool
        // The answer is true exactly where some cell is in both sections, for all numbers.
        //   [overlaps.corner_alone_is_tested]
        ensures shares { IsTrue result ↔ SharesCell self.now other.now }
        // Where the answer is false, no cell is in both sections. [overlaps.corner_alone_is_tested]
        ensures apart { OnFalse result (AreApart self.now other.now) }
    {
        let ((ax, ay, az), (bx, by, bz)) = (spans(self), spans(other));
        let (wide, high, deep) = (ax.overlaps(bx), ay.overlaps(by), az.overlaps(bz));
        wide && high && deep
    }

    // The error where the section does not hold the box.
    fn check_fit(&self, incoming: &RectToInsert) -> Result<(), BinSectionError>
        ensures { IsFitAnswer self.now incoming.now result }
    {
        if incoming.width() > self.whd.width() {
            return Err(BinSectionError::PlacementWiderThanBinSection);
        }
        if incoming.height() > self.whd.height() {
            return Err(BinSectionError::PlacementTallerThanBinSection);
        }
        if incoming.depth() > self.whd.depth() {
            return Err(BinSectionError::PlacementDeeperThanBinSection);
        }
        Ok(())
    }

    // The pieces right, above and behind, for each of the six orders of cutting.
    fn cuts(&self, incoming: &RectToInsert) -> [[BinSection; 3]; 6]
        requires ends { FitsU32 self.now }
        requires holds { Holds self.now incoming.now }
        ensures { result ≡ cuts self.now incoming.now }
    {
        let size = WidthHeightDepth::from(*incoming);
        let (w, h, d) = (size.width(), size.height(), size.depth());
        let (width, height, depth) = (self.whd.width(), self.whd.height(), self.whd.depth());
        let corner = (self.x, self.y, self.z);
        let end = (self.x + w, self.y + h, self.z + d);
        let rest = (width - w, height - h, depth - d);
        [
            pieces_round(corner, end, rest, (height, depth), (w, depth), (w, h)),
            pieces_round(corner, end, rest, (h, depth), (width, depth), (w, h)),
            pieces_round(corner, end, rest, (height, depth), (w, d), (w, height)),
            pieces_round(corner, end, rest, (height, d), (w, d), (width, height)),
            pieces_round(corner, end, rest, (h, d), (width, depth), (width, h)),
            pieces_round(corner, end, rest, (h, d), (width, d), (width, height)),
        ]
    }
}

/// Places a box into a section that holds it: its location, and the three pieces of the best cut.
#[inline(always)]
pub fn place_held<H, C>(
    section: &BinSection,
    held: &RectToInsert,
    comparison: &C,
    heuristic: &H,
) -> (PackedLocation, [BinSection; 3])
where
    H: Fn(WidthHeightDepth) -> u128,
    C: Fn([WidthHeightDepth; 3], [WidthHeightDepth; 3], &H) -> Ordering,
    requires ends { FitsU32 section.now }
    requires comparable { CanCompare C.Fn comparison.now heuristic.now }
    requires holds { Holds section.now held.now }
    ensures location { result.0 ≡ placed section.now held.now }
    ensures pieces { IsAllowedCut (MayCompare C.Fn comparison.now heuristic.now) section.now
        held.now result.1 }
{
    let cuts = section.cuts(held);
    let mut best = cuts[0];
    for next in 1..6 {
        let challenger = cuts[next];
        let order = comparison(sizes(&best), sizes(&challenger), heuristic);
        if order != Ordering::Greater {
            best = challenger;
        }
    }
    let whd = WidthHeightDepth::from(*held);
    (
        PackedLocation::new(section.x, section.y, section.z, whd),
        best,
    )
}

/// Whether the section ends inside a bin of this size.
pub fn is_inside(section: &BinSection, size: &WidthHeightDepth) -> bool
    ensures { IsTrue result ↔ IsInside size.now section.now }
{
    let whd = section.whd;
    u64::from(section.x) + u64::from(whd.width()) <= u64::from(size.width())
        && u64::from(section.y) + u64::from(whd.height()) <= u64::from(size.height())
        && u64::from(section.z) + u64::from(whd.depth()) <= u64::from(size.depth())
}

/// Whether the section holds the box.
pub fn holds(section: &BinSection, incoming: &RectToInsert) -> bool
    ensures { IsTrue result ↔ Holds section.now incoming.now }
{
    // One branch for width and height, as a search asks this of every section.
    let (size, whd) = (WidthHeightDepth::from(*incoming), section.whd);
    let wider = size.width().saturating_sub(whd.width());
    let taller = size.height().saturating_sub(whd.height());
    u64::from(wider) + u64::from(taller) == 0 && size.depth() <= whd.depth()
}

/// Whether none of the section's sizes is 0.
pub fn has_cells(section: &BinSection) -> bool
    ensures { result ≡ has_cells section.now }
{
    let whd = section.whd;
    whd.width() > 0 && whd.height() > 0 && whd.depth() > 0
}

fn sizes(sections: &[BinSection; 3]) -> [WidthHeightDepth; 3]
    ensures { result ≡ sizes_of sections.now }
{
    [sections[0].whd(), sections[1].whd(), sections[2].whd()]
}

impl BinSectionError {
    // The text that it prints.
    fn text(&self) -> &'static str
        ensures { result.now ≡ fitting_text self.now }
    {
        match self {
            BinSectionError::PlacementWiderThanBinSection => {
                "Can not place a rectangle inside of a bin that is wider than that rectangle."
            }
            BinSectionError::PlacementTallerThanBinSection => {
                "Can not place a rectangle inside of a bin that is taller than that rectangle."
            }
            BinSectionError::PlacementDeeperThanBinSection => {
                "Can not place a rectangle inside of a bin that is deeper than that rectangle."
            }
        }
    }
}

impl fmt::Display for BinSectionError {
    ghost use Rattle.std.specs.Prelude.{Some};
    ghost use Rattle.rectangle_pack_sections.specs.Texts.{fitting_text};

    // What is printed is the text that `fitting_text` lists for the error: "Can not place a
    //   rectangle inside of a bin that is wider than that rectangle.", or the same with "taller" or
    //   "deeper".
    ghost output = { λ e. Some (fitting_text e) };

    fn fmt<W: fmt::Write>(&self, f: &mut fmt::Formatter<W>) -> fmt::Result {
        write!(f, "{}", self.text())
    }
}

impl Error for BinSectionError {}
