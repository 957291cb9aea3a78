//! The laws of a session's transitions.
ghost use Rattle.std.specs.Prelude.{◌≡◌, ◌≤◌, List, false};
ghost use Rattle.std.specs.List.{list_any};
ghost use Rattle.rectangle_pack_sections.specs.Closures.{answers};
ghost use Rattle.rectangle_pack_packing.specs.Packing.{rules_by};
ghost use Rattle.rectangle_pack.specs.declared.session.command.Command.{Command};
ghost use Rattle.rectangle_pack.specs.declared.session.command.Reply.{Reply};
ghost use Rattle.rectangle_pack.specs.Recutting.{IsCutStraight, coalesces};
ghost use Rattle.rectangle_pack.specs.Session.{State, IsSession, IsTransition, IsRun};

use rectangle_pack_sections::group::Group;
use rectangle_pack_sections::width_height_depth::WidthHeightDepth;
use std::alloc::Allocator;
use std::cmp::Ordering;

/// A law: what holds of a session always holds after each transition of it, and after each run:
/// each bin is covered, by boxes that are from straight cuts of it until it is coalesced. And the
/// next number does not fall, so that no number is given twice.
pub fn transitions_keep_sessions<Id, BinId, GroupId, H, C, A>(heuristic: &H, comparison: &C)
where
    Id: Ord,
    BinId: Ord,
    GroupId: Ord,
    H: Fn(WidthHeightDepth) -> u128,
    C: Fn([WidthHeightDepth; 3], [WidthHeightDepth; 3], &H) -> Ordering,
    A: Allocator + Copy,
    // Where what always holds of a session holds before a transition, it holds after it, and the
    //   next number does not fall.
    ensures transition { let groups = ⟦<Group<GroupId, Id> as Ord>⟧.cmp in
        let rules = rules_by Id.cmp BinId.cmp (answers H.Fn C.Fn heuristic.now comparison.now) in
        (command : Command Id BinId GroupId A) (reply : Reply) (old new : State Id BinId) →
        IsTransition groups rules command old reply new →
        IsSession BinId.cmp old →
        IsSession BinId.cmp new × (old.next ≤ new.next) }
    // The same of a run of transitions.
    ensures run { let groups = ⟦<Group<GroupId, Id> as Ord>⟧.cmp in
        let rules = rules_by Id.cmp BinId.cmp (answers H.Fn C.Fn heuristic.now comparison.now) in
        (commands : List (Command Id BinId GroupId A)) (replies : List Reply) →
        (old new : State Id BinId) →
        IsRun (IsTransition groups rules) commands old replies new →
        IsSession BinId.cmp old →
        IsSession BinId.cmp new × (old.next ≤ new.next) }
{}

/// A law: where the boxes of a bin are from straight cuts of it, as after `Session::recut`, they
/// stay so until the bin is coalesced, whether or not it counts as coalesced: after each transition
/// that is no coalescing of this bin, and after each run without one.
pub fn cuts_stay_until_coalesced<Id, BinId, GroupId, H, C, A>(heuristic: &H, comparison: &C)
where
    Id: Ord,
    BinId: Ord,
    GroupId: Ord,
    H: Fn(WidthHeightDepth) -> u128,
    C: Fn([WidthHeightDepth; 3], [WidthHeightDepth; 3], &H) -> Ordering,
    A: Allocator + Copy,
    // Where what always holds of a session holds before a transition that does not coalesce a bin,
    //   and the boxes of this bin are from straight cuts of it, they are so after it.
    ensures transition { let groups = ⟦<Group<GroupId, Id> as Ord>⟧.cmp in
        let rules = rules_by Id.cmp BinId.cmp (answers H.Fn C.Fn heuristic.now comparison.now) in
        (command : Command Id BinId GroupId A) (reply : Reply) (old new : State Id BinId) →
        (id : BinId) → IsTransition groups rules command old reply new →
        IsSession BinId.cmp old → coalesces BinId.cmp id command ≡ false →
        IsCutStraight BinId.cmp id old → IsCutStraight BinId.cmp id new }
    // The same of a run of transitions, none of which coalesces the bin.
    ensures run { let groups = ⟦<Group<GroupId, Id> as Ord>⟧.cmp in
        let rules = rules_by Id.cmp BinId.cmp (answers H.Fn C.Fn heuristic.now comparison.now) in
        (commands : List (Command Id BinId GroupId A)) (replies : List Reply) →
        (old new : State Id BinId) (id : BinId) →
        IsRun (IsTransition groups rules) commands old replies new →
        IsSession BinId.cmp old → list_any (coalesces BinId.cmp id) commands ≡ false →
        IsCutStraight BinId.cmp id old → IsCutStraight BinId.cmp id new }
{}
