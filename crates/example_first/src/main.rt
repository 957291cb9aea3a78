//! Packs three sprites into an atlas, two of them as a group.
#![tactic(auto)]

use rectangle_pack::{
    GroupedRectsToPlace, RectToInsert, Session, SessionError, contains_smallest_box,
    volume_heuristic,
};
use std::alloc::{AllocError, Global};
use std::io;

type Sprites = GroupedRectsToPlace<&'static str, &'static str>;

type Atlas = Session<&'static str, &'static str>;

fn add_sprites(sprites: &mut Sprites, alloc: Global) -> Result<(), AllocError> {
    for (id, width, height) in [("hat", 10, 20), ("shoe", 5, 50)] {
        let groups = vec![in alloc; "player"]?;
        sprites.push_rect(id, Some(groups), RectToInsert::new(width, height, 1))?;
    }
    sprites.push_rect("tree", None, RectToInsert::new(30, 30, 1))
}

fn pack(atlas: &mut Atlas, sprites: &Sprites) -> Result<(), SessionError> {
    atlas.add_bin("atlas", 100, 100, 1)?;
    atlas.pack(sprites, &volume_heuristic, &contains_smallest_box)?;
    Ok(())
}

fn print(rt: &HostRuntime, atlas: &Atlas) -> io::Result<()> {
    for placed in atlas.outstanding() {
        let (x, y) = (placed.location.x(), placed.location.y());
        println!(rt; "{} is in {} at {x} {y}", placed.id, placed.bin)?;
    }
    Ok(())
}

fn main(rt: HostRuntime) -> io::Result<()> {
    let mut sprites = GroupedRectsToPlace::new(rt.alloc());
    add_sprites(&mut sprites, rt.alloc())?;
    let mut atlas = Session::new(rt.alloc(), 0);
    pack(&mut atlas, &sprites)?;
    print(&rt, &atlas)
}
