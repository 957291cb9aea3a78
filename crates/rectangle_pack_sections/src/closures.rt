//! What packings ask of the closures that a caller gives, or of a heuristic that has a name.
ghost use Rattle.std.specs.Prelude.{◌≡◌};
ghost use Rattle.rectangle_pack_sections.specs.Boxes.{FitsU32, Holds};
ghost use Rattle.rectangle_pack_sections.specs.Choice.{IsAllowedCut};
ghost use Rattle.rectangle_pack_sections.specs.Closures.{AreCallable, Answers, answers};
ghost use Rattle.rectangle_pack_sections.specs.Cuts.{placed};
ghost use Rattle.rectangle_pack_sections.specs.Heuristics.{named_answers, rate_of};

use crate::bin_section::{BinSection, contains_smallest_box, place_held};
use crate::box_size_heuristics::Heuristic;
use crate::packed_location::PackedLocation;
use crate::rect_to_insert::RectToInsert;
use crate::width_height_depth::WidthHeightDepth;
use std::cmp::Ordering;

/// What a packing asks of the closures: whether it may ask, and what they may answer.
pub trait Policy {
    ghost is_callable: { Self → Type 0 };

    ghost may: { Self → Answers };

    /// What the heuristic answers on a size.
    fn rate(&self, size: WidthHeightDepth) -> u128
        requires { is_callable self.now }
        ensures { (may self.now).rate size result };

    /// Places a box into a section that holds it, by the comparison's choice of a cut.
    fn place(
        &self,
        section: &BinSection,
        member: &RectToInsert,
    ) -> (PackedLocation, [BinSection; 3])
        requires callable { is_callable self.now }
        requires ends { FitsU32 section.now }
        requires holds { Holds section.now member.now }
        ensures location { result.0 ≡ placed section.now member.now }
        ensures pieces { IsAllowedCut (may self.now).prefer section.now member.now result.1 };
}

#[derive(Drop)]
pub struct Closures<'a, H, C> {
    pub heuristic: &'a H,
    pub comparison: &'a C,
}

impl<H, C> Policy for Closures<'_, H, C>
where
    H: Fn(WidthHeightDepth) -> u128,
    C: Fn([WidthHeightDepth; 3], [WidthHeightDepth; 3], &H) -> Ordering,
{
    ghost is_callable = { λ s. AreCallable H.Fn C.Fn s.heuristic.now s.comparison.now };

    ghost may = { λ s. answers H.Fn C.Fn s.heuristic.now s.comparison.now };

    fn rate(&self, size: WidthHeightDepth) -> u128 {
        (self.heuristic)(size)
    }

    // Inlined, as its answer would go through memory.
    #[inline(always)]
    fn place(
        &self,
        section: &BinSection,
        member: &RectToInsert,
    ) -> (PackedLocation, [BinSection; 3]) {
        place_held(section, member, self.comparison, self.heuristic)
    }
}

/// A heuristic that has a name, and `contains_smallest_box` beside it.
#[derive(Drop)]
pub struct Named(pub Heuristic);

impl Policy for Named {
    ghost is_callable = { λ _. Unit {0} };

    ghost may = { λ s. named_answers s.0 };

    fn rate(&self, size: WidthHeightDepth) -> u128 {
        self.0.rate(size)
    }

    fn place(
        &self,
        section: &BinSection,
        member: &RectToInsert,
    ) -> (PackedLocation, [BinSection; 3]) {
        let heuristic = self.0;
        let rate = |size: WidthHeightDepth| -> u128
            ensures { result ≡ rate_of heuristic size }
        { heuristic.rate(size) };
        place_held(section, member, &contains_smallest_box, &rate)
    }
}
