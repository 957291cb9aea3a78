//! The boxes of the next packing, and the packing by a heuristic.

ghost use Rattle.std.specs.Prelude.{◌<◌, IfOk, vec_len};
ghost use Rattle.std.specs.Option.{ForSome};

use rectangle_pack::{
    Group, GroupedRectsToPlace, Heuristic, PackedLocation, RectToInsert, Session, SessionError,
    WidthHeightDepth, contains_smallest_box,
};
use std::alloc::{AllocError, Global};
use std::io;

pub type Boxes = GroupedRectsToPlace<u32, u32>;

pub type Bins = Session<u32, u32>;

// The groups of a box: none where the number is 0.
fn groups_of(alloc: Global, group: u32) -> Result<Option<Vec<u32>>, AllocError>
    ensures { IfOk result (λ groups. ForSome groups (λ named. 0 < vec_len named)) }
{
    if group == 0 {
        return Ok(None);
    }
    Ok(Some(vec![in alloc; group]?))
}

fn push(alloc: Global, boxes: &mut Boxes, rect: RectToInsert, group: u32) -> io::Result<()> {
    let id = u32::try_from(boxes.rects().len()).unwrap_or(u32::MAX);
    boxes.push_rect(id, groups_of(alloc, group)?, rect)?;
    Ok(())
}

// The size of a box, or no cells where it is not there.
fn size_of(boxes: &Boxes, index: u32) -> RectToInsert {
    match boxes.rects().get(&index) {
        Some(rect) => *rect,
        None => RectToInsert::new(0, 0, 0),
    }
}

// The group of this number, or the box of this index alone where that is 0.
pub fn group_of(group: u32, index: u32) -> Group<u32, u32> {
    if group == 0 {
        Group::Ungrouped(index)
    } else {
        Group::Grouped(group)
    }
}

fn exclude(boxes: &mut Boxes, one: Group<u32, u32>, other: Group<u32, u32>) -> io::Result<()> {
    if one != other {
        boxes.exclude(one, other)?;
    }
    Ok(())
}

// Obeys a line that tells of the next packing. Tells whether it is one.
pub fn add(alloc: Global, boxes: &mut Boxes, word: &str, numbers: [u32; 4]) -> io::Result<bool> {
    let [a, b, c, d] = numbers;
    match word {
        "box" => push(alloc, boxes, RectToInsert::new(a, b, c), d)?,
        "member" => {
            let rect = size_of(boxes, a);
            push(alloc, boxes, rect, b)?;
        }
        "also" => boxes.push_rect(a, groups_of(alloc, b)?, size_of(boxes, a))?,
        "exclude" => exclude(boxes, group_of(a, c), group_of(b, d))?,
        _ => return Ok(false),
    }
    Ok(true)
}

// Packs by the heuristic of this number, or by the best of all where there is none. Gives the number
// of the heuristic, or `None` where there is no space.
pub fn pack(session: &mut Bins, boxes: &Boxes, number: u32) -> io::Result<Option<usize>> {
    let answer = match Heuristic::ALL.get(number as usize) {
        Some(one) => session.pack_best(boxes, &[*one]),
        None => session.pack_best(boxes, &Heuristic::ALL),
    };
    match answer {
        Ok((best, _)) => Ok(Heuristic::ALL.iter().position(|one| *one == best)),
        Err(SessionError::NotEnoughBinSpace) => Ok(None),
        Err(error) => Err(io::Error::from(error)),
    }
}

// Places box 0 at this corner of a bin. Gives the number of its placement, or `None` where it is
// refused.
pub fn place(session: &mut Bins, boxes: &Boxes, bin: u32, corner: [u32; 3]) -> Option<u64> {
    let [x, y, z] = corner;
    let size = size_of(boxes, 0);
    match session.place_at(bin, 0, PackedLocation::new(x, y, z, size.into())) {
        Ok(number) => Some(number),
        Err(_) => None,
    }
}

// Places box 0 where it fits best, in this bin or in any, and cuts the rest by the heuristic of this
// number. Tells whether it is done.
pub fn fit(session: &mut Bins, boxes: &Boxes, bin: Option<&u32>, number: u32) -> bool {
    let Some(heuristic) = Heuristic::ALL.get(number as usize) else {
        return false;
    };
    let rate = |size: WidthHeightDepth| -> u128 { heuristic.rate(size) };
    let size = size_of(boxes, 0);
    session
        .place_best(bin, 0, size, &rate, &contains_smallest_box)
        .is_ok()
}
