//! Trials in a bin.
ghost use Rattle.std.specs.Prelude.{◌≡◌, ◌+◌, ◌≤◌, IsOk, length};
ghost use Rattle.rectangle_pack_sections.specs.Closures.{AreCallable, answers};
ghost use Rattle.rectangle_pack_lists.specs.Trials.{IsTrialAnswer, most_tests};

use crate::target_bin::{FitTests, TargetBin, put_sections, take_sections};
use rectangle_pack_lists::free_list::{End, FreeList};
use rectangle_pack_lists::trial::{Trial, add};
use rectangle_pack_sections::closures::Closures;
use rectangle_pack_sections::packed_location::PackedLocation;
use rectangle_pack_sections::rect_to_insert::RectToInsert;
use rectangle_pack_sections::width_height_depth::WidthHeightDepth;
use std::alloc::{AllocError, Allocator};
use std::cmp::Ordering;

impl<A: Allocator + Copy> TargetBin<A> {
    /// One trial: places the members in order, each into the newest section that holds it, and
    /// answers their locations; `None` where some member finds no section. `None` and an error
    /// leave the bin as it was.
    ///
    /// The caller sees to it that both closures may be called on every size. The counter grows by
    /// the fit tests of the trial: for m members in a list of s sections by at most
    /// m * s + m * (m - 1). Fails only when memory is refused, and then the counter stays; without
    /// members no memory is taken.
    pub fn place_all<H, C>(
        &mut self,
        members: &[RectToInsert],
        heuristic: &H,
        comparison: &C,
        tests: &mut FitTests,
    ) -> Result<Option<Vec<PackedLocation, A>>, AllocError>
    where
        H: Fn(WidthHeightDepth) -> u128,
        C: Fn([WidthHeightDepth; 3], [WidthHeightDepth; 3], &H) -> Ordering,
        requires callable { AreCallable H.Fn C.Fn heuristic.now comparison.now }
        // Locations: there is one for each member, in their order.
        //   [run_trial.member_without_a_section_is_skipped,
        //   run_trial.later_member_without_a_section_is_skipped,
        //   place_all.first_member_alone_is_tried]
        // Locations: each member in turn stands at the corner of the newest section that held it,
        //   in its own size. [newest.first_section_is_taken]
        // Locations: the section of each member is taken out of the list. The pieces of an allowed
        //   cut, as `pieces` of `try_place` says it, stand at the end of the list, by falling rate,
        //   at equal rates in the order right, above, behind; those without cells are left out. All
        //   else in the bin stays. [into_sections.sections_are_joined]
        // `None`: after steps for the members before it, some member is held by no section of the
        //   list. [last_holding.search_misses_the_last]
        // `None`: the bin is as it was, list order included. [undo_one.undone_section_goes_last]
        // Locations and `None`: exactly the fit tests of the trial are added to the counter, which
        //   stays at the greatest `u128`: for a member that is placed one for its section and one
        //   for each section after it, for a stuck member one for each section.
        //   [add.fit_tests_are_not_counted]
        // An error leaves the bin and the counter as they were.
        ensures answer { IsTrialAnswer (answers H.Fn C.Fn heuristic.now comparison.now)
            self.old.bin members.now tests.old result self.new.bin tests.new }
        // With m members and s free sections the counter grows by at most m * s + m * (m - 1).
        ensures most { tests.new ≤ tests.old +
            most_tests (length members.now) (length self.old.bin.sections) }
        // Without members it succeeds.
        ensures no_members { length members.now ≡ 0 → IsOk result }
    {
        let policy = Closures {
            heuristic,
            comparison,
        };
        let mut locations = Vec::new(*self.available_bin_sections.allocator());
        let mut list = FreeList::new(take_sections(self), members.len());
        let trial = list.run_trial(members, &policy, &mut locations);
        // A stuck trial was undone.
        put_sections(self, list.into_sections(End::Keep));
        let Trial {
            is_done,
            tests: made,
        } = trial?;
        add(tests, made);
        Ok(if is_done { Some(locations) } else { None })
    }
}
