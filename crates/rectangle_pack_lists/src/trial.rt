//! One trial, in a list of free sections, which is undone where it is stuck; and counts of fit tests.
ghost use Rattle.std.specs.Prelude.{ℕ, ◌≡◌, ◌+◌, ◌≤◌, ◌∷◌, [], List, length, All, IsOk, IfSome, false, map, filter};
ghost use Rattle.rectangle_pack_sections.specs.Boxes.{Cuboid, Holds, FitsU32, has_cells};
ghost use Rattle.rectangle_pack_sections.specs.Choice.{IsAllowedCut};
ghost use Rattle.rectangle_pack_sections.specs.Cuts.{placed};
ghost use Rattle.rectangle_pack_lists.specs.Numbers.{saturated};
ghost use Rattle.rectangle_pack_lists.specs.Steps.{AreLeft, AreRanked};
ghost use Rattle.rectangle_pack_lists.specs.private.FreeLists.{IsTried, IsStuckAtOnce, now_of, start_of};

use crate::free_list::plain::newest;
use crate::free_list::{FreeList, Spare};
use rectangle_pack_sections::bin_section::BinSection;
use rectangle_pack_sections::closures::Policy;
use rectangle_pack_sections::packed_location::PackedLocation;
use rectangle_pack_sections::rect_to_insert::RectToInsert;
use rectangle_pack_sections::width_height_depth::WidthHeightDepth;
use std::alloc::{AllocError, Allocator};
use std::marker::Model;

// For how many steps of a trial room is made at once. A trial that is stuck after a few steps leaves
// little room in its bin.
const AT_ONCE: usize = 8;

// The three pieces by falling rate; at equal rates the one listed first stands first.
fn by_falling_rate(
    right: (u128, BinSection),
    above: (u128, BinSection),
    behind: (u128, BinSection),
) -> [BinSection; 3]
    ensures { (ranked : List (ℕ × Cuboid)) × AreRanked (right ∷ above ∷ behind ∷ []) ranked ×
        (result ≡ map (λ p. p.1) ranked) }
{
    let ((a, right), (b, above), (c, behind)) = (right, above, behind);
    if a >= b {
        if b >= c {
            [right, above, behind]
        } else if a >= c {
            [right, behind, above]
        } else {
            [behind, right, above]
        }
    } else if a >= c {
        [above, right, behind]
    } else if b >= c {
        [above, behind, right]
    } else {
        [behind, above, right]
    }
}

// Places a member at the corner of a section that holds it: its location, and the three pieces that
// are left of the section, by falling rate.
#[inline(always)]
pub(crate) fn place_in<R: Policy>(
    section: &BinSection,
    member: &RectToInsert,
    policy: &R,
) -> (PackedLocation, [BinSection; 3])
    requires callable { R.is_callable policy.now }
    requires ends { FitsU32 section.now }
    requires holds { Holds section.now member.now }
    ensures location { result.0 ≡ placed section.now member.now }
    ensures pieces { (cut : List Cuboid) ×
        IsAllowedCut (R.may policy.now).prefer section.now member.now cut ×
        AreLeft (R.may policy.now).rate cut (filter has_cells result.1) }
{
    let (location, [right, above, behind]) = policy.place(section, member);
    let pieces = by_falling_rate(
        (policy.rate(right.whd()), right),
        (policy.rate(above.whd()), above),
        (policy.rate(behind.whd()), behind),
    );
    (location, pieces)
}

/// What came of a trial: whether it is done, and how many fit tests a look at one section after
/// another makes for it. Else it is stuck.
#[derive(Clone, Copy)]
pub struct Trial {
    pub is_done: bool,
    pub tests: u128,
}

/// A trial in these sections that is stuck at its first member, since none of them holds it; `None`
/// where one of them does, and without members. Nothing is changed, and no memory is taken.
pub fn stuck_at_once(sections: &[BinSection], members: &[RectToInsert]) -> Option<Trial>
    ensures { IfSome result
        (λ trial.
        (trial.is_done ≡ false) ×
        IsStuckAtOnce sections.now members.now trial.tests) }
{
    let first = members.first()?;
    match newest(sections, first) {
        Some(_) => None,
        None => Some(Trial {
            is_done: false,
            tests: sections.len() as u128,
        }),
    }
}

impl<A: Allocator + Copy> FreeList<A> {
    /// One trial. Its locations are left in `locations`, whose room is used for one trial after
    /// another. A stuck trial is undone, and the room that was made stays. Room is made only once a
    /// member has found a section, so a trial that is stuck at once takes no memory. Fails only when
    /// memory is refused.
    pub fn run_trial<R: Policy>(
        &mut self,
        members: &[RectToInsert],
        policy: &R,
        locations: &mut Vec<PackedLocation, A>,
    ) -> Result<Trial, AllocError>
        requires callable { R.is_callable policy.now }
        requires fits { All FitsU32 (now_of self.old) }
        ensures tried { IsTried (R.may policy.now) (now_of self.old) members.now result
            locations.new.items (now_of self.new) }
        ensures start { start_of self.new ≡ start_of self.old }
        ensures room { self.old.room ≤ self.new.room }
        ensures no_members { length members.now ≡ 0 → IsOk result }
    {
        locations.clear();
        let kept = self.steps();
        let mut tests = 0;
        for (i, member) in members.iter().enumerate() {
            let found = self.find(member);
            tests += found.tests as u128;
            let Some(place) = found.place else {
                self.undo_to(kept);
                return Ok(Trial {
                    is_done: false,
                    tests,
                });
            };
            if i == 0 {
                locations.reserve(members.len())?;
            }
            if i % AT_ONCE == 0 {
                self.reserve_or_undo(AT_ONCE.min(members.len() - i), kept)?;
            }
            let location = self.place(place, member, policy);
            locations.push_reserved(location);
        }
        Ok(Trial {
            is_done: true,
            tests,
        })
    }

    /// One trial, with room for notes that is kept for the trial in the next bin.
    pub fn run_trial_in<R: Policy>(
        &mut self,
        spare: &mut Spare<A>,
        members: &[RectToInsert],
        policy: &R,
        locations: &mut Vec<PackedLocation, A>,
    ) -> Result<Trial, AllocError>
        requires callable { R.is_callable policy.now }
        requires fits { All FitsU32 (now_of self.old) }
        ensures tried { IsTried (R.may policy.now) (now_of self.old) members.now result
            locations.new.items (now_of self.new) }
        ensures start { start_of self.new ≡ start_of self.old }
    {
        self.swap_notes(spare);
        let trial = self.run_trial(members, policy, locations)?;
        self.swap_notes(spare);
        Ok(trial)
    }
}

/// A count of fit tests. A member that is placed counts one for its section and one for each newer
/// section; a member that finds no section counts one for each section of the list. Sections that a
/// search passes over without a test are counted too. The count stops at the greatest `u128`.
#[derive(Debug, PartialEq, Drop)]
pub struct FitTests {
    count: u128,
}

impl Model for FitTests {
    ghost use Rattle.std.specs.Prelude.{ℕ};

    ghost Value = { ℕ };

    ghost view = { λ t. t.count };

    ghost inverse = { λ n. record { count = n } };
}

impl FitTests {
    /// No test was made.
    pub fn new() -> Self
        ensures { result ≡ 0 }
    {
        FitTests { count: 0 }
    }

    /// The number of tests.
    pub fn count(&self) -> u128
        ensures { result ≡ self.now }
    {
        self.count
    }
}

/// Counts `more` tests more.
pub fn add(tests: &mut FitTests, more: u128)
    ensures { tests.new ≡ saturated (tests.old + more) }
{
    tests.count = tests.count.saturating_add(more);
}
