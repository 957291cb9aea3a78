//! Packing as it is told for C: step by step, each a group, a bin and a heuristic.
ghost use Rattle.std.specs.Prelude.{◌≡◌, ◌≢◌, ◌==◌, ◌⊎◌, ◌+◌, ◌<◌, ◌^◌, ℕ, [], All, length, slice_get, nat_le, not, IfOk, IfErr, IsOk, IsSome, IsSomeAnd, Err, MatchBool, true};
ghost use Rattle.std.specs.List.{list_any};
ghost use Rattle.std.specs.Ordering.{nat_cmp};
ghost use Rattle.rectangle_pack_packing.specs.declared.pack.told.StepFault.TheVariants.{UnknownGroup};
ghost use Rattle.rectangle_pack_packing.specs.declared.pack.told.ToldError.TheVariants.{OutOfMemory, StepRefused};
ghost use Rattle.rectangle_pack.specs.Session.{IsSession};
ghost use Rattle.rectangle_pack.specs.SessionTold.{PacksAsTold, ToldAsPromised};
ghost use Rattle.rectangle_pack_c.specs.Arguments.{new_bins};
ghost use Rattle.rectangle_pack_c.specs.Collections.{all_boxes, group_of, group_order};
ghost use Rattle.rectangle_pack_c.specs.Fitting.{AreFitted, FitsApart, StandFittedApart};
ghost use Rattle.rectangle_pack_c.specs.Heuristics.{heuristic_number};
ghost use Rattle.rectangle_pack_c.specs.Telling.{AreSteps, IsRefusalWritten, IsStep, RefusesStep, RefusesTelling, TellsCollection, TellsNewBins, TellsSession, error_status, is_heuristic, step_fault, told_fault_in, told_fault_of};
ghost use Rattle.rectangle_pack_c.specs.private.Written.{NewAreWrittenAmong};

use super::collection::{
    RpCollection, are_as_many, are_equal, collection_of, heuristic_of, name_no_box,
};
use super::fitting::{left_outstanding, left_placement, write_among};
use super::handle::RpSession;
use super::session::RpOutstanding;
use super::{
    LIMIT, RP_BAD_LENGTHS, RP_DONE, RP_EQUAL_GROUPS, RP_NUMBERS_USED_UP, RP_OUT_OF_MEMORY,
    RP_STEP_REFUSED, RP_UNKNOWN_BOX, RP_UNKNOWN_HEURISTIC, RpBin, RpPlacement, Written, session_of,
};
use rectangle_pack::{
    Group, GroupedRectsToPlace, Heuristic, Outstanding, Packed, Session, Step, StepFault, ToldError,
};
use std::alloc::{AllocError, Global};

/// A step of a packing as it is told: a group goes whole into a bin.
#[repr(C)]
#[derive(Clone, Copy)]
pub struct RpStep {
    /// The index of a box of the group, or the number of boxes and the index of a member of it.
    pub index: u32,
    /// The index of the bin in the list of bins; in a session its id.
    pub bin: u32,
    /// The number of the heuristic by which sections are cut up. `RP_BEST` is none.
    pub heuristic: u32,
}

/// The first step that is refused, and why.
#[repr(C)]
#[derive(Clone, Copy)]
pub struct RpRefused {
    /// The index of the step.
    pub step: usize,
    /// Why it is refused: the first reason that is so.
    pub fault: u32,
}

/// There is no such bin.
pub const RP_STEP_UNKNOWN_BIN: u32 = 1;
/// An earlier step names the group.
pub const RP_STEP_NAMED_TWICE: u32 = 2;
/// A group that is excluded with this one went into the bin by an earlier step.
pub const RP_STEP_EXCLUDED: u32 = 3;
/// The bin does not take all boxes of the group.
pub const RP_STEP_NO_ROOM: u32 = 4;

/// Packs a collection into the bins as it is told: step by step, the group of the box or member at
/// the index of the step goes whole into the step's bin. Groups that no step names are left.
/// Placement i is where box i stands, and behind those of the boxes stand those of the members; of
/// one that is left, its bin is `RP_LEFT_BIN` and its corner (0, 0, 0). `RP_DONE`,
/// `RP_OUT_OF_MEMORY`, or `RP_STEP_REFUSED`, and then the first step that cannot be done is
/// written, and why; or, looked at first and in this order, `RP_BAD_LENGTHS`,
/// `RP_UNKNOWN_HEURISTIC`, `RP_UNKNOWN_BOX` or `RP_EQUAL_GROUPS`. But for `RP_DONE` no placement is
/// written.
#[unsafe(no_mangle)]
pub extern "C" fn rectangle_pack_told(
    alloc: Global,
    bins: &[RpBin],
    collection: &RpCollection<'_>,
    steps: &[RpStep],
    placements: &mut [RpPlacement],
    refused: &mut RpRefused,
) -> u32
    // The first thing that is wrong with the arguments is answered, looked at in this order:
    //   `RP_BAD_LENGTHS`, `RP_UNKNOWN_HEURISTIC`, `RP_UNKNOWN_BOX`, `RP_EQUAL_GROUPS`. Each of them
    //   comes only so. [name_no_group.index_behind_the_members_is_known]
    // Where nothing is wrong, the status is `RP_DONE`, `RP_STEP_REFUSED` or `RP_OUT_OF_MEMORY`.
    ensures faults { let fault = told_fault_in bins.now collection.now steps.now
        (length placements.old) in
        MatchBool (fault == 0)
        ((result ≡ RP_DONE) ⊎ (result ≡ RP_STEP_REFUSED) ⊎ (result ≡ RP_OUT_OF_MEMORY))
        (result ≡ fault) }
    // Where the status is not `RP_DONE`, no placement is written.
    ensures unchanged { result ≢ RP_DONE → placements.new ≡ placements.old }
    // Where it is not `RP_STEP_REFUSED`, no step is written.
    ensures kept { result ≢ RP_STEP_REFUSED → refused.new ≡ refused.old }
    // `RP_STEP_REFUSED`: the steps before the one that is written are done, in new bins of these
    //   sizes, each under its index. That one is refused, for the reason that is written, as
    //   `answer` of `pack_rects_told` says it. [rectangle_pack_told.refused_step_is_done,
    //   refuse.next_step_is_named, fault_number.excluded_is_no_room]
    ensures refused { result ≡ RP_STEP_REFUSED →
        RefusesStep (all_boxes collection.now) collection.now.exclusions.now steps.now
        (new_bins bins.now) refused.new }
    // `RP_DONE`: all steps are done, in a new session with these bins, each under its index, as
    //   `packed` and `promise` of `Session::pack_told` say it. [step_of.step_goes_into_bin_0,
    //   step_of.volume_is_every_heuristic]
    // `RP_DONE`: each box, and each member as a box in its group, is placed, in its size, in the
    //   bin and at the corner that its placement names, and a step names its group; or no step
    //   does, and its placement says that it is left. [write_among.left_keeps_what_was]
    ensures packed { result ≡ RP_DONE →
        TellsNewBins bins.now (all_boxes collection.now) collection.now.exclusions.now steps.now
        placements.new }
    // `RP_DONE`: each box that is not left stands, in its size, inside the bin that its placement
    //   names; no two in one bin share a cell; those of one group above 0 are all left, or all in
    //   one bin.
    ensures done { result ≡ RP_DONE →
        AreFitted bins.now (all_boxes collection.now) placements.new }
    // `RP_DONE`: boxes of groups that are excluded, and not left, are in different bins.
    ensures apart { result ≡ RP_DONE →
        FitsApart (all_boxes collection.now) collection.now.exclusions.now placements.new }
{
    if bins.len() >= LIMIT {
        return RP_BAD_LENGTHS;
    }
    let fault = told_fault(collection, steps, placements.len());
    if fault != RP_DONE {
        return fault;
    }
    let Ok(mut session) = session_of(alloc, bins) else {
        return RP_OUT_OF_MEMORY;
    };
    let left = left_placement();
    match tell_into(alloc, &mut session, collection, steps, placements, left) {
        Ok(()) => RP_DONE,
        // The steps name 2^64 entries in all, one group again and again: no memory holds as many.
        Err(ToldError::NumbersUsedUp) => RP_OUT_OF_MEMORY,
        Err(error) => refuse(error, refused),
    }
}

/// Packs a collection into the bins of the session as it is told: step by step, the group of the
/// box or member at the index of the step goes whole into the step's bin. Groups that no step names
/// are left. Placement i, with its number, is that of box i, and behind those of the boxes stand
/// those of the members; of one that is left, its number is `RP_LEFT_NUMBER`, its bin `RP_LEFT_BIN`
/// and its corner (0, 0, 0). `RP_DONE`, `RP_OUT_OF_MEMORY`, `RP_NUMBERS_USED_UP`, or
/// `RP_STEP_REFUSED`, and then the first step that cannot be done is written, and why; or, looked
/// at first and in this order, `RP_BAD_LENGTHS`, `RP_UNKNOWN_HEURISTIC`, `RP_UNKNOWN_BOX` or
/// `RP_EQUAL_GROUPS`. What is not done leaves the session as it was, and writes no placement.
#[unsafe(no_mangle)]
pub extern "C" fn rectangle_pack_session_pack_told(
    alloc: Global,
    session: &mut RpSession,
    collection: &RpCollection<'_>,
    steps: &[RpStep],
    placements: &mut [RpOutstanding],
    refused: &mut RpRefused,
) -> u32
    // The handle has a session.
    requires made { IsSome session.old.state }
    // The first thing that is wrong with the arguments is answered, as `rectangle_pack_told` does.
    //   Then the session is as it was.
    ensures faults { let fault = told_fault_of collection.now steps.now (length placements.old) in
        fault ≢ 0 → (result ≡ fault) × (session.new.state ≡ session.old.state) }
    // Else all steps are done, in the bins of the session, or nothing is, as `packed` and `promise`
    //   of `Session::pack_told` say it. The status is that of the answer: `RP_DONE`,
    //   `RP_STEP_REFUSED`, `RP_NUMBERS_USED_UP` or `RP_OUT_OF_MEMORY`; but for `RP_DONE` the
    //   session is as it was. What always holds of a session holds afterwards.
    //   [step_of.step_goes_into_bin_0, step_of.volume_is_every_heuristic]
    // `RP_STEP_REFUSED`: the first step that is refused is written, and why.
    //   [refuse.next_step_is_named]
    // `RP_DONE`: each box, and each member as a box in its group, is outstanding, in its size, in
    //   the bin and at the corner that its placement names, under the number that its placement
    //   has, and a step names its group; or no step does, and its placement says that it is left.
    //   The numbers of those that are placed differ, and none is below the next number of before.
    //   Those of one group above 0 are all left, or all in one bin.
    //   [write_among.left_keeps_what_was]
    ensures packed { told_fault_of collection.now steps.now (length placements.old) ≡ 0 →
        TellsSession (all_boxes collection.now) collection.now.exclusions.now steps.now
        placements.new refused.new session.old.state result session.new.state }
    // `RP_DONE`: boxes of groups that are excluded, and not left, are in different bins.
    ensures apart { result ≡ RP_DONE →
        StandFittedApart (all_boxes collection.now) collection.now.exclusions.now placements.new }
    // `RP_OUT_OF_MEMORY`: there is a box or an exclusion.
    ensures memory { result ≡ RP_OUT_OF_MEMORY →
        0 < length collection.now.boxes.now + length collection.now.exclusions.now }
    // Where the status is not `RP_DONE`, no placement is written.
    ensures unchanged { result ≢ RP_DONE → placements.new ≡ placements.old }
    // Where it is not `RP_STEP_REFUSED`, no step is written.
    ensures kept { result ≢ RP_STEP_REFUSED → refused.new ≡ refused.old }
{
    let fault = told_fault(collection, steps, placements.len());
    if fault != RP_DONE {
        return fault;
    }
    let mut held = session.take(alloc);
    let left = left_outstanding();
    let answer = tell_into(alloc, &mut held, collection, steps, placements, left);
    *session = RpSession::of(held);
    match answer {
        Ok(()) => RP_DONE,
        Err(error) => refuse(error, refused),
    }
}

// The first thing that is wrong with the arguments, as a status; or `RP_DONE`.
fn told_fault(collection: &RpCollection<'_>, steps: &[RpStep], placement_count: usize) -> u32
    ensures { result ≡ told_fault_of collection.now steps.now placement_count }
{
    if !are_as_many(collection, placement_count) {
        return RP_BAD_LENGTHS;
    }
    if name_no_heuristic(steps) {
        return RP_UNKNOWN_HEURISTIC;
    }
    let (boxes, members) = (collection.boxes.len(), collection.members);
    if name_no_box(members, boxes) || name_no_group(steps, placement_count) {
        return RP_UNKNOWN_BOX;
    }
    if are_equal(collection.exclusions) {
        return RP_EQUAL_GROUPS;
    }
    RP_DONE
}

// Whether a step has the number of no heuristic.
fn name_no_heuristic(steps: &[RpStep]) -> bool
    ensures { result ≡ list_any (λ s. not (is_heuristic s.heuristic)) steps.now }
{
    steps.iter().any(|step| !is_heuristic(step.heuristic))
}

// Whether a heuristic has this number.
fn is_heuristic(number: u32) -> bool
    ensures { result ≡ is_heuristic number }
{
    heuristic_of(number).is_some()
}

// Whether the index of a step is not below this number.
fn name_no_group(steps: &[RpStep], entries: usize) -> bool
    ensures { result ≡ list_any (λ s. nat_le entries s.index) steps.now }
{
    steps.iter().any(|step| entries <= step.index as usize)
}

// Packs into the session as it is told, and writes the placements, and `left` for each box that no
// step names.
fn tell_into<T: Written<Outstanding<u32, u32>>>(
    alloc: Global,
    session: &mut Session<u32, u32>,
    collection: &RpCollection<'_>,
    steps: &[RpStep],
    placements: &mut [T],
    left: T,
) -> Result<(), ToldError>
    requires sound { told_fault_of collection.now steps.now (length placements.old) ≡ 0 }
    ensures packed { IfOk result (λ _.
        TellsCollection (all_boxes collection.now) collection.now.exclusions.now steps.now
        session.old session.new) }
    ensures refused { IfErr result (λ error.
        RefusesTelling (all_boxes collection.now) collection.now.exclusions.now steps.now
        session.old error session.new) }
    ensures memory { length collection.now.boxes.now ≡ 0 →
        length collection.now.exclusions.now ≡ 0 → result ≢ Err OutOfMemory }
    ensures always { IsSession nat_cmp session.new }
    ensures next { IfOk result (λ _. session.new.next < 2 ^ 64) }
    ensures written { IfOk result
        (λ _. NewAreWrittenAmong T.written left session.old session.new placements.new) }
    ensures unchanged { IfErr result (λ _. placements.new ≡ placements.old) }
{
    let known = session.outstanding().len();
    let rects = collection_of(alloc, collection)?;
    let told = steps_of(alloc, collection, steps)?;
    let _packed = tell(session, &rects, told.as_slice())?;
    write_among(&session.outstanding()[known..], placements, left);
    // For the proof: the next number is asked for, since it is of 64 bits.
    let _next = session.next_number();
    Ok(())
}

// Packs as it is told. The order of groups is that of their numbers.
fn tell(
    session: &mut Session<u32, u32>,
    rects: &GroupedRectsToPlace<u32, u32>,
    steps: &[Step<u32, u32, u32>],
) -> Result<Packed, ToldError>
    ensures packed { PacksAsTold group_order nat_cmp nat_cmp rects.now steps.now
        session.old result session.new }
    ensures promise { ToldAsPromised group_order nat_cmp nat_cmp rects.now steps.now
        session.old result session.new }
    ensures no_steps { steps.now ≡ [] → IsOk result }
    ensures always { IsSession nat_cmp session.new }
{
    session.pack_told(rects, steps)
}

// The steps as the library has them.
fn steps_of(
    alloc: Global,
    collection: &RpCollection<'_>,
    steps: &[RpStep],
) -> Result<Vec<Step<u32, u32, u32>>, AllocError>
    requires heuristics { All (λ s. is_heuristic s.heuristic ≡ true) steps.now }
    requires indices { All (λ s. s.index < length (all_boxes collection.now)) steps.now }
    ensures are { IfOk result
        (λ told. AreSteps (all_boxes collection.now) steps.now told.items) }
    ensures no_steps { length steps.now ≡ 0 → IsOk result }
{
    let mut told = Vec::new(alloc);
    for step in steps {
        told.push(step_of(collection, step))?;
    }
    Ok(told)
}

// A step as the library has it.
fn step_of(collection: &RpCollection<'_>, step: &RpStep) -> Step<u32, u32, u32>
    requires heuristic { is_heuristic step.now.heuristic ≡ true }
    requires index { step.now.index < length (all_boxes collection.now) }
    ensures { IsStep (all_boxes collection.now) step.now result }
{
    Step {
        group: group_at(collection, step.index),
        bin: step.bin,
        heuristic: known_heuristic(step.heuristic),
    }
}

// The heuristic of this number, which is one.
fn known_heuristic(number: u32) -> Heuristic
    requires { is_heuristic number ≡ true }
    ensures { number ≡ heuristic_number result }
{
    match heuristic_of(number) {
        Some(heuristic) => heuristic,
        None => unreachable!(),
    }
}

// The group of the box, or of the member, at this index.
fn group_at(collection: &RpCollection<'_>, index: u32) -> Group<u32, u32>
    requires { index < length (all_boxes collection.now) }
    ensures { IsSomeAnd (slice_get (all_boxes collection.now) index)
        (λ b. result ≡ group_of index b) }
{
    match number_at(collection, index as usize) {
        0 => Group::Ungrouped(index),
        number => Group::Grouped(number),
    }
}

// The number of that group, or 0.
fn number_at(collection: &RpCollection<'_>, index: usize) -> u32
    requires { index < length (all_boxes collection.now) }
    ensures { IsSomeAnd (slice_get (all_boxes collection.now) index) (λ b. result ≡ b.group) }
{
    let boxes = collection.boxes;
    if index < boxes.len() {
        boxes[index].group
    } else {
        collection.members[index - boxes.len()].group
    }
}

// The status of a refusal. A step that is refused is written.
fn refuse(error: ToldError, refused: &mut RpRefused) -> u32
    requires { (index : ℕ) → error ≢ StepRefused index UnknownGroup }
    ensures status { result ≡ error_status error }
    ensures written { IsRefusalWritten error refused.new }
    ensures kept { result ≢ RP_STEP_REFUSED → refused.new ≡ refused.old }
{
    match error {
        ToldError::StepRefused(step, fault) => {
            let fault = fault_number(fault);
            *refused = RpRefused { step, fault };
            RP_STEP_REFUSED
        }
        ToldError::NumbersUsedUp => RP_NUMBERS_USED_UP,
        ToldError::OutOfMemory => RP_OUT_OF_MEMORY,
    }
}

// The number of the reason for which a step is refused. Each step's group is in the collection.
fn fault_number(fault: StepFault) -> u32
    requires { fault ≢ UnknownGroup }
    ensures { result ≡ step_fault fault }
{
    match fault {
        StepFault::UnknownGroup => unreachable!(),
        StepFault::UnknownBin => RP_STEP_UNKNOWN_BIN,
        StepFault::NamedTwice => RP_STEP_NAMED_TWICE,
        StepFault::Excluded => RP_STEP_EXCLUDED,
        StepFault::NoRoom => RP_STEP_NO_ROOM,
    }
}
