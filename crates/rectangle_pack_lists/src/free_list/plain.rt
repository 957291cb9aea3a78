//! The plain list of free sections: one after another, and closed up where one is taken out.
ghost use Rattle.std.specs.Prelude.{◌≡◌, ◌<◌, ◌≤◌, ◌+◌, ◌-◌, ◌++◌, ◌∷◌, [], length, All, IfNone, IfSome, vec_len, filter, insert, take};
ghost use Rattle.std.specs.Vec.{vec_capacity};
ghost use Rattle.std.specs.List.{HoldsAt, AllWithin};
ghost use Rattle.rectangle_pack_sections.specs.Boxes.{Holds, FitsU32, has_cells};
ghost use Rattle.rectangle_pack_lists.specs.Steps.{IsStep};

use crate::trial::place_in;
use rectangle_pack_sections::bin_section::{BinSection, has_cells, holds};
use rectangle_pack_sections::closures::Policy;
use rectangle_pack_sections::packed_location::PackedLocation;
use rectangle_pack_sections::rect_to_insert::RectToInsert;
use std::alloc::Allocator;

/// What a step did to a plain list: which section it took out, at which place, and how many pieces
/// it pushed.
#[derive(Clone, Copy)]
pub struct Taken {
    pub place: usize,
    pub section: BinSection,
    pub pushed: usize,
}

// The index of the last section that holds a member. Never inlined: among a caller's values the
// loop would lack registers.
#[inline(never)]
pub(crate) fn newest(sections: &[BinSection], member: &RectToInsert) -> Option<usize>
    ensures none { IfNone result (All (λ s. ¬ Holds s member.now) sections.now) }
    ensures some { IfSome result
        (λ i.
        (i < length sections.now) ×
        HoldsAt (λ s. Holds s member.now) sections.now i ×
        AllWithin (λ s. ¬ Holds s member.now) sections.now (i + 1) (length sections.now)) }
{
    // A copy, which is not read again for each section.
    let member = *member;
    for i in (0..sections.len()).rev() {
        if holds(&sections[i], &member) {
            return Some(i);
        }
    }
    None
}

// Pushes a piece that has cells, where there is room.
fn push_piece<A: Allocator>(sections: &mut Vec<BinSection, A>, piece: BinSection)
    requires { vec_len sections.old < vec_capacity sections.old }
    ensures items { sections.new.items ≡ sections.old.items ++ filter has_cells (piece ∷ []) }
    ensures capacity { vec_capacity sections.old ≤ vec_capacity sections.new }
{
    if has_cells(&piece) {
        sections.push_reserved(piece);
    }
}

/// Pushes the pieces that have cells, in order, where there is room for all.
pub fn push_pieces<A: Allocator>(sections: &mut Vec<BinSection, A>, pieces: [BinSection; 3])
    requires { vec_len sections.old + 3 ≤ vec_capacity sections.old }
    ensures items { sections.new.items ≡ sections.old.items ++ filter has_cells pieces }
    ensures capacity { vec_capacity sections.old ≤ vec_capacity sections.new }
{
    let [first, second, third] = pieces;
    push_piece(sections, first);
    push_piece(sections, second);
    push_piece(sections, third);
}

/// Takes a section out of the list and pushes what is left of it round a member.
pub fn place_at<A, R>(
    sections: &mut Vec<BinSection, A>,
    place: usize,
    member: &RectToInsert,
    policy: &R,
) -> (PackedLocation, Taken)
where
    A: Allocator,
    R: Policy,
    requires callable { R.is_callable policy.now }
    requires place { place < length sections.old.items }
    requires holds { HoldsAt (λ s. Holds s member.now) sections.old.items place }
    requires newest { AllWithin (λ s. ¬ Holds s member.now) sections.old.items (place + 1)
        (length sections.old.items) }
    requires fits { All FitsU32 sections.old.items }
    requires room { vec_len sections.old + 2 ≤ vec_capacity sections.old }
    ensures capacity { vec_capacity sections.old ≤ vec_capacity sections.new }
    ensures step { IsStep (R.may policy.now) sections.old.items member.now result.0
        sections.new.items (length sections.old.items - place) }
    ensures before { insert (take (length sections.new.items - result.1.pushed) sections.new.items)
        result.1.place result.1.section ≡ sections.old.items }
    ensures place { result.1.place + result.1.pushed ≤ length sections.new.items }
    ensures room { length sections.new.items < vec_capacity sections.new + result.1.pushed }
{
    let section = sections.remove(place);
    let (location, pieces) = place_in(&section, member, policy);
    let kept = sections.len();
    push_pieces(sections, pieces);
    let pushed = sections.len() - kept;
    (
        location,
        Taken {
            place,
            section,
            pushed,
        },
    )
}

// Takes the pieces of a step off, and puts its section in again at its place.
pub(crate) fn undo_one<A: Allocator>(sections: &mut Vec<BinSection, A>, taken: Taken)
    requires place { taken.place + taken.pushed ≤ length sections.old.items }
    requires room { length sections.old.items < vec_capacity sections.old + taken.pushed }
    ensures items { sections.new.items ≡
        insert (take (length sections.old.items - taken.pushed) sections.old.items) taken.place
        taken.section }
    ensures capacity { vec_capacity sections.old ≤ vec_capacity sections.new }
{
    sections.truncate(sections.len() - taken.pushed);
    // There is room for it, so it is not refused.
    let _ = sections.insert(taken.place, taken.section);
}
