//! How boxes of a collection may be turned, by their numbers.
use super::STRIP;
use crate::RpBox;
use crate::collection::{RpCollection, RpMember};
use crate::turning::turns_in;
use rectangle_pack::Turns;
use std::alloc::{AllocError, Global};
use std::test::Fail;

// How the boxes and the members of a collection of two strips may be turned that has members of the
// boxes 1 and 0: under each index the axes about which it may be turned, or nothing.
fn turned(alloc: Global, numbers: &[u32]) -> Result<[Option<Turns>; 4], AllocError> {
    let boxes: [RpBox; 2] = [STRIP, STRIP];
    let members = [
        RpMember { index: 1, group: 3 },
        RpMember { index: 0, group: 0 },
    ];
    let collection = RpCollection {
        members: members.as_slice(),
        ..RpCollection::of(boxes.as_slice())
    };
    let turns = turns_in(alloc, &collection, numbers)?;
    Ok([0, 1, 2, 3].map(|index: u32| turns.get(&index).copied()))
}

const ABOUT_X: Turns = Turns {
    about_x: true,
    ..Turns::NONE
};

const ABOUT_Y_AND_Z: Turns = Turns {
    about_x: false,
    about_y: true,
    about_z: true,
};

#[test]
fn members_are_turned_as_their_boxes(rt: HostRuntime) -> Result<(), Fail> {
    let all = turned(rt.alloc(), [1, 6].as_slice())?;
    let (x, rest) = (Some(ABOUT_X), Some(ABOUT_Y_AND_Z));
    assert_eq!(rt; all, [x, rest, rest, x]);
    Ok(())
}

#[test]
fn boxes_behind_the_list_are_not_turned(rt: HostRuntime) -> Result<(), Fail> {
    let one = turned(rt.alloc(), [1].as_slice())?;
    assert_eq!(rt; one, [Some(ABOUT_X), None, None, Some(ABOUT_X)]);
    assert_eq!(rt; turned(rt.alloc(), &[])?, [None, None, None, None]);
    // Other bits do not count: 9 has that of x.
    let more = turned(rt.alloc(), [9].as_slice())?;
    assert_eq!(rt; more, [Some(ABOUT_X), None, None, Some(ABOUT_X)]);
    Ok(())
}
