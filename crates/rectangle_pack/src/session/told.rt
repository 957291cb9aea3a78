//! Packing a session as it is told: step by step, each a group, a bin and a heuristic.
ghost use Rattle.std.specs.Prelude.{◌≡◌, ◌+◌, ◌≤◌, ◌^◌, [], IsOk, MatchOption};
ghost use Rattle.rectangle_pack_sections.specs.Clones.{ClonesEqual};
ghost use Rattle.rectangle_pack_packing.specs.Told.{entries_in_steps};
ghost use Rattle.rectangle_pack.specs.Session.{IsSession};
ghost use Rattle.rectangle_pack.specs.SessionTold.{PacksAsTold, ToldAsPromised};

use crate::session::Session;
use crate::session::command::Packed;
use crate::session::outstanding::number_all;
use rectangle_pack_groups::grouped_rects_to_place::GroupedRectsToPlace;
use rectangle_pack_packing::pack::told::{Step, ToldError, try_told};
use rectangle_pack_sections::group::Group;
use std::alloc::Allocator;

// The number after those of the entries of the groups that the steps name, where the first gets
// this number, or `None` where numbers are used up.
fn number_after_steps<Id, GroupId, BinId, A>(
    first: u64,
    groups: &GroupedRectsToPlace<Id, GroupId, A>,
    steps: &[Step<Id, GroupId, BinId>],
) -> Option<u64>
where
    Id: Ord + Clone + Drop,
    GroupId: Ord + Clone + Drop,
    A: Allocator + Copy,
    ensures { let order = ⟦<Group<GroupId, Id> as Ord>⟧.cmp in
        let entries = entries_in_steps order groups.now steps.now in
        MatchOption result (2 ^ 64 ≤ first + entries) (λ n. n ≡ first + entries) }
{
    let mut number = first;
    for step in steps {
        if let Some(ids) = groups.groups().get(&step.group) {
            number = number.checked_add(ids.len() as u64)?;
        }
    }
    Some(number)
}

impl<Id, BinId, A> Session<Id, BinId, A>
where
    Id: Ord + Clone + Drop,
    BinId: Ord + Clone + Drop,
    A: Allocator + Copy,
{
    /// Packs into the bins as it is told, step by step, as `pack_rects_told` does. Groups that no
    /// step names stay out. The placements go to the end of `outstanding` under the next numbers,
    /// in the order of the steps. Groups that are excluded are kept apart within this call.
    ///
    /// The caller sees to it that clones of ids equal their originals.
    ///
    /// `NumbersUsedUp` says that the next number and the entries of the groups that the steps name
    /// add up to more than the greatest `u64`; this is looked at first. `StepRefused` names the
    /// first step that cannot be done, and why; `OutOfMemory` may come before it. On each error the
    /// session is as it was.
    ///
    /// ```
    /// let mut session: Session<u32, &'static str> = Session::new(alloc, 0);
    /// session.add_bin("left", 10, 10, 1)?;
    /// session.add_bin("right", 10, 10, 1)?;
    /// ```
    ///
    /// A box is to go in.
    ///
    /// ```
    /// let mut rects: GroupedRectsToPlace<u32, u32> = GroupedRectsToPlace::new(alloc);
    /// rects.push_rect(7, None, RectToInsert::new(4, 10, 1))?;
    /// ```
    ///
    /// A packing would take the first bin. A step names the other.
    ///
    /// ```
    /// let step = Step {
    ///     group: Group::Ungrouped(7),
    ///     bin: "right",
    ///     heuristic: Heuristic::Volume,
    /// };
    /// let packed = session.pack_told(&rects, &[step])?;
    /// assert_eq!(rt; packed.count, 1);
    /// assert_eq!(rt; session.outstanding_in(&"right")?.len(), 1);
    /// ```
    pub fn pack_told<GroupId>(
        &mut self,
        groups: &GroupedRectsToPlace<Id, GroupId, A>,
        steps: &[Step<Id, GroupId, BinId>],
    ) -> Result<Packed, ToldError>
    where
        GroupId: Ord + Clone + Drop,
        requires ids { ClonesEqual Id.is_clone Id.eq }
        requires bin_ids { ClonesEqual BinId.is_clone BinId.eq }
        // Packed: each step in turn is done, by the rule of `pack_rects_told`.
        // Packed: the placements, one for each entry of the groups that the steps name, follow the
        //   outstanding ones under the next numbers. The answer has the first of these numbers and
        //   how many there are; the next number grows by as many.
        //   [pack_told.numbers_are_given_twice]
        // `NumbersUsedUp`: exactly where the next number and these entries add up to more than the
        //   greatest `u64`. The session is as it was. [number_after_steps.step_counts_as_one]
        // `StepRefused`: the steps before the one at this index are done, and it is refused for
        //   this reason, in the words of `answer` of `pack_rects_told`. The session is as it was,
        //   the order of its lists included.
        // `OutOfMemory`: there is a step, and the numbers are not used up. The session is as it
        //   was.
        ensures packed { PacksAsTold ⟦<Group<GroupId, Id> as Ord>⟧.cmp Id.cmp BinId.cmp
            groups.now steps.now self.old result self.new }
        // Packed: every entry of each group that a step names is placed once, in the size of its
        //   id, all of the group in the bin of the step. No two steps name one group, and two
        //   groups that are excluded are in different bins.
        ensures promise { ToldAsPromised ⟦<Group<GroupId, Id> as Ord>⟧.cmp Id.cmp BinId.cmp
            groups.now steps.now self.old result self.new }
        // Without steps it succeeds.
        ensures no_steps { steps.now ≡ [] → IsOk result }
        // What always holds of a session holds afterwards.
        ensures always { IsSession BinId.cmp self.new }
    {
        let first = self.next;
        let Some(next) = number_after_steps(first, groups, steps) else {
            return Err(ToldError::NumbersUsedUp);
        };
        let count = next - first;
        if steps.is_empty() {
            return Ok(Packed { first, count });
        }
        let entries = count as usize;
        self.outstanding.reserve(entries)?;
        let alloc = *self.outstanding.allocator();
        let placements = try_told(alloc, groups, &mut self.bins, entries, steps)?;
        number_all(&mut self.outstanding, placements, first);
        self.next = next;
        Ok(Packed { first, count })
    }
}
