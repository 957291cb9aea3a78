//! Spans: stretches of an axis.
ghost use Rattle.std.specs.Prelude.{◌≡◌, ◌↔◌, IsTrue};
ghost use Rattle.rectangle_pack_sections.specs.Boxes.{FitsU32, end};
ghost use Rattle.rectangle_pack_sections.specs.private.Spans.{span_of, spans_of, span_end, SpanFits, SpansOverlap, SpansTouch, hull};

use crate::axis::Axis;
use crate::bin_section::BinSection;

/// `length` places, from `start` on.
#[derive(Clone, Copy, PartialEq)]
pub struct Span {
    pub start: u32,
    pub length: u32,
}

impl Span {
    /// The span of a section on an axis.
    #[tactic(auto, unfolding(crate::specs::Boxes::start, crate::specs::Boxes::extent, crate::specs::Boxes::end))]
    pub fn of(section: &BinSection, axis: Axis) -> Span
        ensures is { result ≡ span_of axis section.now }
        ensures ends { span_end result ≡ end axis section.now }
        ensures fits { FitsU32 section.now → SpanFits result }
    {
        let whd = section.whd();
        let (start, length) = match axis {
            Axis::X => (section.x(), whd.width()),
            Axis::Y => (section.y(), whd.height()),
            Axis::Z => (section.z(), whd.depth()),
        };
        Span { start, length }
    }

    /// Where it ends: the first place beyond it.
    pub fn end(self) -> u32
        requires { SpanFits self }
        ensures { result ≡ span_end self }
    {
        self.start + self.length
    }

    /// Whether some place is in both, for all numbers.
    pub fn overlaps(self, other: Span) -> bool
        ensures { IsTrue result ↔ SpansOverlap self other }
    {
        let first = self.start.max(other.start);
        first - self.start < self.length && first - other.start < other.length
    }

    /// Whether one ends where the other starts.
    pub fn touches(self, other: Span) -> bool
        requires first { SpanFits self }
        requires second { SpanFits other }
        ensures { IsTrue result ↔ SpansTouch self other }
    {
        (self.end() == other.start) | (other.end() == self.start)
    }

    /// From the lower start to the higher end.
    pub fn hull(self, other: Span) -> Span
        requires first { SpanFits self }
        requires second { SpanFits other }
        ensures { result ≡ hull self other }
    {
        let start = self.start.min(other.start);
        let length = self.end().max(other.end()) - start;
        Span { start, length }
    }
}

/// The spans of a section on x, y and z.
pub fn spans(section: &BinSection) -> (Span, Span, Span)
    ensures { result ≡ spans_of section.now }
{
    (
        Span::of(section, Axis::X),
        Span::of(section, Axis::Y),
        Span::of(section, Axis::Z),
    )
}
