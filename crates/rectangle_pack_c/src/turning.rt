//! How the boxes of a collection may be turned, for C.
ghost use Rattle.std.specs.Prelude.{◌≡◌, ◌<◌, length, IfOk};
ghost use Rattle.rectangle_pack_c.specs.Collections.{all_boxes};
ghost use Rattle.rectangle_pack_c.specs.Turning.{AreTurnsOf, box_index, turns_number};

use super::LIMIT;
use super::collection::RpCollection;
use super::judging::turns_of;
use rectangle_pack::Turns;
use std::alloc::{AllocError, Global};
use std::collections::BTreeMap;

// How each box of a collection may be turned, and each member as its box, by their numbers: under
// the indices of those that may be turned.
pub(crate) fn turns_in(
    alloc: Global,
    collection: &RpCollection<'_>,
    turns: &[u32],
) -> Result<BTreeMap<u32, Turns>, AllocError>
    requires few { length (all_boxes collection.now) < LIMIT }
    ensures { IfOk result (λ map. AreTurnsOf collection.now turns.now map.entries) }
{
    let mut map = BTreeMap::new(alloc);
    for index in 0..collection.boxes.len() + collection.members.len() {
        let number = turns_number(collection, turns, index);
        if number != 0 {
            map.insert(index as u32, turns_of(number))?;
        }
    }
    Ok(map)
}

// The number that says how the box at this index may be turned: 0 where the list has none for it.
fn turns_number(collection: &RpCollection<'_>, turns: &[u32], index: usize) -> u32
    requires { index < length (all_boxes collection.now) }
    ensures { result ≡ turns_number collection.now turns.now index }
{
    let place = box_index(collection, index);
    if place < turns.len() { turns[place] } else { 0 }
}

// The index of the box that is placed at this index: behind the boxes that of the member's box.
fn box_index(collection: &RpCollection<'_>, index: usize) -> usize
    requires { index < length (all_boxes collection.now) }
    ensures { result ≡ box_index collection.now index }
{
    let (boxes, members) = (collection.boxes.len(), collection.members);
    if index < boxes {
        index
    } else {
        members[index - boxes].index as usize
    }
}
