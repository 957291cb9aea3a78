//! The judge for C: what is wrong with a packing that somebody made.
ghost use Rattle.std.specs.Prelude.{◌≡◌, ◌⊎◌, ◌==◌, ◌+◌, ◌^◌, cond, ◌≢◌, ◌<◌, ◌↔◌, map, length, IfOk};
ghost use Rattle.rectangle_pack_c.specs.Arguments.{bin_size};
ghost use Rattle.rectangle_pack_c.specs.Judging.{AreFew, IsChecked, IsVerdictOf, alone_number, claim_of, conflict_number, entries_of, fault_of, pair_of, turns_of};
ghost use Rattle.rectangle_pack_c.specs.private.Short.{AreShort};

use super::collection::RpExclusion;
use super::reading::RpSection;
use super::{LIMIT, RP_BAD_LENGTHS, RP_DONE, RP_OUT_OF_MEMORY, RpBin, RpBox};
use rectangle_pack::{
    AloneFault, BinSection, Case, Claim, Conflict, Entry, Fault, RectToInsert, TurningBox, Turns,
    WidthHeightDepth, first_fault,
};
use std::alloc::{AllocError, Global};

/// A box that is to stand in a bin, once, and how it may be turned.
#[repr(C)]
#[derive(Clone, Copy)]
pub struct RpEntry {
    /// Its size and its group.
    pub rect: RpBox,
    /// The sum of 1 where height and depth may change places, 2 where width and depth may, and 4
    /// where width and height may.
    pub turns: u32,
}

/// Where somebody put a box.
#[repr(C)]
#[derive(Clone, Copy)]
pub struct RpClaim {
    /// The index of the box.
    pub entry: u32,
    /// The index of the bin.
    pub bin: u32,
    /// Where the box stands, in its size there.
    pub section: RpSection,
}

/// What is wrong first with a packing, or that nothing is.
#[repr(C)]
#[derive(Clone, Copy)]
pub struct RpFault {
    /// What is wrong, or `RP_NO_FAULT`.
    pub kind: u32,
    /// The claim, or the earlier one of two; of `RP_FAULT_NOT_PLACED` the box. Else 0.
    pub first: u32,
    /// The later claim of two, else 0.
    pub second: u32,
}

/// It is a packing.
pub const RP_NO_FAULT: u32 = 0;
/// There is no bin of this index.
pub const RP_FAULT_UNKNOWN_BIN: u32 = 1;
/// There is no box of this index.
pub const RP_FAULT_UNKNOWN_BOX: u32 = 2;
/// The size is not that of the box, nor one in which it may be turned.
pub const RP_FAULT_WRONG_SIZE: u32 = 3;
/// The box is not inside the bin.
pub const RP_FAULT_OUTSIDE: u32 = 4;
/// Two claims place one box.
pub const RP_FAULT_PLACED_TWICE: u32 = 5;
/// Two claims share a cell of a bin.
pub const RP_FAULT_SHARES_CELL: u32 = 6;
/// Two claims are of one group, in two bins.
pub const RP_FAULT_GROUP_IN_TWO_BINS: u32 = 7;
/// Two claims are of groups that are excluded, in one bin.
pub const RP_FAULT_EXCLUDED_TOGETHER: u32 = 8;
/// No claim places the box.
pub const RP_FAULT_NOT_PLACED: u32 = 9;

// A size of these sides.
fn size_of(width: u32, height: u32, depth: u32) -> WidthHeightDepth
    ensures { result ≡ record { width = width; height = height; depth = depth } }
{
    WidthHeightDepth::from(RectToInsert::new(width, height, depth))
}

// About which axes a box may be turned.
pub(crate) fn turns_of(turns: u32) -> Turns
    ensures { result ≡ turns_of turns }
{
    Turns {
        about_x: turns % 2 == 1,
        about_y: turns / 2 % 2 == 1,
        about_z: turns / 4 % 2 == 1,
    }
}

// The number of the group of the box at this index. A box that is alone has one of its own, which
// no box in a group has.
fn group_at(index: usize, group: u32) -> usize
    requires { index < LIMIT }
    ensures { result ≡ cond (group == 0) (2 ^ 32 + index) group }
{
    if group == 0 {
        LIMIT + index
    } else {
        group as usize
    }
}

// The sizes of the bins.
fn sizes_of(alloc: Global, bins: &[RpBin]) -> Result<Vec<WidthHeightDepth>, AllocError>
    ensures { IfOk result (λ sizes. sizes.items ≡ map bin_size bins.now) }
{
    let mut sizes = Vec::with_capacity(alloc, bins.len())?;
    for bin in bins {
        sizes.push(size_of(bin.width, bin.height, bin.depth))?;
    }
    Ok(sizes)
}

// The boxes, as the judge has them.
fn entries_of(alloc: Global, entries: &[RpEntry]) -> Result<Vec<Entry>, AllocError>
    requires { length entries.now < LIMIT }
    ensures { IfOk result (λ all. all.items ≡ entries_of entries.now) }
{
    let mut all = Vec::with_capacity(alloc, entries.len())?;
    for (i, entry) in entries.iter().enumerate() {
        let RpBox {
            width,
            height,
            depth,
            group,
        } = entry.rect;
        let turning = TurningBox {
            whd: size_of(width, height, depth),
            turns: turns_of(entry.turns),
        };
        let group = group_at(i, group);
        all.push(Entry { group, turning })?;
    }
    Ok(all)
}

// The pairs of groups that are excluded.
fn pairs_of(alloc: Global, exclusions: &[RpExclusion]) -> Result<Vec<(usize, usize)>, AllocError>
    ensures { IfOk result (λ pairs. pairs.items ≡ map pair_of exclusions.now) }
{
    let mut pairs = Vec::with_capacity(alloc, exclusions.len())?;
    for exclusion in exclusions {
        pairs.push((exclusion.one as usize, exclusion.other as usize))?;
    }
    Ok(pairs)
}

// Where a box stands, as the judge has it.
fn claim_of(claim: &RpClaim) -> Claim
    ensures { result ≡ claim_of claim.now }
{
    let RpSection {
        x,
        y,
        z,
        width,
        height,
        depth,
    } = claim.section;
    Claim {
        entry: claim.entry as usize,
        bin: claim.bin as usize,
        section: BinSection::new(x, y, z, size_of(width, height, depth)),
    }
}

// The claims, as the judge has them.
fn claims_of(alloc: Global, claims: &[RpClaim]) -> Result<Vec<Claim>, AllocError>
    ensures { IfOk result (λ all. all.items ≡ map claim_of claims.now) }
{
    let mut all = Vec::with_capacity(alloc, claims.len())?;
    for claim in claims {
        all.push(claim_of(claim))?;
    }
    Ok(all)
}

// What the judge says of the claims.
fn judged(
    alloc: Global,
    bins: &[RpBin],
    entries: &[RpEntry],
    exclusions: &[RpExclusion],
    claims: &[RpClaim],
) -> Result<Option<Fault>, AllocError>
    requires { length entries.now < LIMIT }
    ensures { IfOk result
        (IsVerdictOf bins.now entries.now exclusions.now claims.now) }
{
    let sizes = sizes_of(alloc, bins)?;
    let all = entries_of(alloc, entries)?;
    let pairs = pairs_of(alloc, exclusions)?;
    let told = claims_of(alloc, claims)?;
    let case = Case {
        bins: sizes.as_slice(),
        entries: all.as_slice(),
        excluded: pairs.as_slice(),
    };
    let fault = first_fault(alloc, &case, told.as_slice())?;
    Ok(fault)
}

// The number of what is wrong with a claim.
fn alone_number(fault: AloneFault) -> u32
    ensures { result ≡ alone_number fault }
{
    match fault {
        AloneFault::UnknownBin => RP_FAULT_UNKNOWN_BIN,
        AloneFault::UnknownEntry => RP_FAULT_UNKNOWN_BOX,
        AloneFault::WrongSize => RP_FAULT_WRONG_SIZE,
        AloneFault::Outside => RP_FAULT_OUTSIDE,
    }
}

// The number of what is wrong with two claims.
fn conflict_number(conflict: Conflict) -> u32
    ensures { result ≡ conflict_number conflict }
{
    match conflict {
        Conflict::PlacedTwice => RP_FAULT_PLACED_TWICE,
        Conflict::SharesCell => RP_FAULT_SHARES_CELL,
        Conflict::GroupInTwoBins => RP_FAULT_GROUP_IN_TWO_BINS,
        Conflict::ExcludedTogether => RP_FAULT_EXCLUDED_TOGETHER,
    }
}

// What is wrong, as C has it.
fn fault_of(found: Option<Fault>) -> RpFault
    requires { AreShort found }
    ensures { result ≡ fault_of found }
{
    let (kind, first, second) = match found {
        None => (RP_NO_FAULT, 0, 0),
        Some(Fault::Alone { claim, fault }) => (alone_number(fault), claim as u32, 0),
        Some(
            Fault::Together {
                first,
                second,
                conflict,
            },
        ) => (conflict_number(conflict), first as u32, second as u32),
        Some(Fault::NotPlaced { entry }) => (RP_FAULT_NOT_PLACED, entry as u32, 0),
    };
    RpFault {
        kind,
        first,
        second,
    }
}

/// Says what is wrong first with a packing that somebody made, whoever it was, or that nothing is:
/// each box is placed once, in one of the sizes in which it may stand, inside its bin; no two boxes
/// share a cell; the boxes of one group above 0 are in one bin, and those of groups that are
/// excluded in different ones. What is answered is the status; but for `RP_DONE` nothing is
/// written.
#[unsafe(no_mangle)]
pub extern "C" fn rectangle_pack_check(
    alloc: Global,
    bins: &[RpBin],
    entries: &[RpEntry],
    exclusions: &[RpExclusion],
    claims: &[RpClaim],
    fault: &mut RpFault,
) -> u32
    // The status is `RP_DONE`, `RP_OUT_OF_MEMORY` or `RP_BAD_LENGTHS`.
    ensures status { (result ≡ RP_DONE) ⊎ (result ≡ RP_OUT_OF_MEMORY)
        ⊎ (result ≡ RP_BAD_LENGTHS) }
    // `RP_BAD_LENGTHS` is answered exactly where there are 2^32 bins, boxes or claims, or more.
    ensures lengths { (result ≢ RP_BAD_LENGTHS) ↔ AreFew bins.now entries.now claims.now }
    // Where the status is not `RP_DONE`, nothing is written.
    ensures unchanged { result ≢ RP_DONE → fault.new ≡ fault.old }
    // `RP_DONE`: what is written is what the judge says of these claims: `RP_NO_FAULT` exactly
    //   where they are a packing; else the fault of the first claim that may not stand with those
    //   before it, or the first box that no claim places.
    //   [first_bad.neighbours_alone_are_compared, is_on.box_that_starts_at_the_plane_is_lost,
    //   group_at.boxes_alone_are_one_group, fault_of.claims_change_places,
    //   turns_of.axes_change_places]
    ensures verdict { result ≡ RP_DONE →
        IsChecked bins.now entries.now exclusions.now claims.now fault.new }
{
    if bins.len() >= LIMIT || entries.len() >= LIMIT || claims.len() >= LIMIT {
        return RP_BAD_LENGTHS;
    }
    match judged(alloc, bins, entries, exclusions, claims) {
        Ok(found) => {
            *fault = fault_of(found);
            RP_DONE
        }
        Err(_) => RP_OUT_OF_MEMORY,
    }
}
