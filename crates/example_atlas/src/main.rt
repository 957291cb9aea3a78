//! A texture atlas. The sprites of a level go onto pages, those of one kind onto one page, packed
//! with the best of all heuristics; an atlas that is packed by volume stands beside it. Then the
//! level is unloaded, and the sprites of the next one go where its sprites were.
#![tactic(auto)]

ghost use Rattle.std.specs.Prelude.{◌<◌, length};

use rectangle_pack::{
    GroupedRectsToPlace, Heuristic, Outstanding, PackedLocation, RectToInsert, Session,
    SessionError,
};
use std::alloc::{AllocError, Global};
use std::io;

// The side of a page, in pixels, and how many pages there may be.
const PAGE: u32 = 512;

const MOST_PAGES: u32 = 8;

// The sprites of one kind, which are drawn together and so go onto one page: the name, how many
// there are, and how wide and high each is.
type Kind = (&'static str, u32, u32, u32);

const ALWAYS: [Kind; 3] = [
    ("hero", 24, 48, 64),
    ("icon", 40, 24, 24),
    ("glyph", 52, 12, 20),
];

const FOREST: [Kind; 5] = [
    ("tree", 7, 96, 128),
    ("wolf", 16, 64, 40),
    ("bush", 12, 40, 32),
    ("bird", 20, 32, 24),
    ("stone", 18, 32, 32),
];

const CAVE: [Kind; 4] = [
    ("troll", 10, 72, 88),
    ("crystal", 24, 32, 48),
    ("spider", 16, 48, 36),
    ("bat", 20, 36, 28),
];

// The name of a sprite: its kind, and its number among these.
type Sprite = (&'static str, u32);

type Sprites = GroupedRectsToPlace<Sprite, &'static str>;

type Atlas = Session<Sprite, u32>;

// Adds the sprites of a kind, as a group.
fn add_kind(sprites: &mut Sprites, kind: &Kind, alloc: Global) -> Result<(), AllocError> {
    let (name, count, width, height) = *kind;
    for number in 0..count {
        let group = vec![in alloc; name]?;
        let size = RectToInsert::new(width, height, 1);
        sprites.push_rect((name, number), Some(group), size)?;
    }
    Ok(())
}

fn add_kinds(sprites: &mut Sprites, kinds: &[Kind], alloc: Global) -> Result<(), AllocError> {
    for kind in kinds {
        add_kind(sprites, kind, alloc)?;
    }
    Ok(())
}

fn add_page(atlas: &mut Atlas, page: u32) -> Result<(), SessionError> {
    match atlas.add_bin(page, PAGE, PAGE, 1) {
        Err(SessionError::DuplicateBin) => Ok(()),
        added => added,
    }
}

// Packs the sprites with the best of the heuristics, onto new pages where those that are there do
// not take them; which one it is.
fn pack(
    atlas: &mut Atlas,
    sprites: &Sprites,
    heuristics: &[Heuristic],
) -> Result<Heuristic, SessionError>
    requires { 0 < length heuristics.now }
{
    for page in 1..=MOST_PAGES {
        match atlas.pack_best(sprites, heuristics) {
            Err(SessionError::NotEnoughBinSpace) => add_page(atlas, page)?,
            packed => {
                let (best, _) = packed?;
                return Ok(best);
            }
        }
    }
    Err(SessionError::NotEnoughBinSpace)
}

// Packs the sprites of these kinds, as `pack` does.
fn load(
    atlas: &mut Atlas,
    kinds: &[Kind],
    heuristics: &[Heuristic],
    alloc: Global,
) -> Result<Heuristic, SessionError>
    requires { 0 < length heuristics.now }
{
    let mut sprites: Sprites = GroupedRectsToPlace::new(alloc);
    add_kinds(&mut sprites, kinds, alloc)?;
    pack(atlas, &sprites, heuristics)
}

// Whether the sprite is of one of these kinds.
fn is_of(sprite: &Sprite, kinds: &[Kind]) -> bool {
    for (name, ..) in kinds {
        if *name == sprite.0 {
            return true;
        }
    }
    false
}

// Notes the numbers of the sprites of these kinds.
fn note_numbers(numbers: &mut Vec<u64>, atlas: &Atlas, kinds: &[Kind]) -> Result<(), AllocError> {
    for placed in atlas.outstanding() {
        if is_of(&placed.id, kinds) {
            numbers.push(placed.number)?;
        }
    }
    Ok(())
}

fn release_all(atlas: &mut Atlas, numbers: &[u64]) -> Result<(), SessionError> {
    for number in numbers {
        atlas.release(*number)?;
    }
    Ok(())
}

// Joins what is free, page by page.
fn join(atlas: &mut Atlas) -> Result<(), SessionError> {
    for page in 1..=MOST_PAGES {
        if atlas.bins().contains_key(&page) {
            atlas.coalesce_all(&page)?;
        }
    }
    Ok(())
}

// Releases the sprites of these kinds, and joins what is free.
fn unload(atlas: &mut Atlas, kinds: &[Kind], alloc: Global) -> Result<(), SessionError> {
    let mut numbers = Vec::new(alloc);
    note_numbers(&mut numbers, atlas, kinds)?;
    release_all(atlas, numbers.as_slice())?;
    join(atlas)
}

// How full a page is, in percent, if there is one of this number.
fn filled(atlas: &Atlas, page: u32) -> Option<u128> {
    let stats = atlas.stats(&page)?;
    let part = stats.placed_volume.saturating_mul(100);
    part.checked_div(stats.bin_volume)
}

fn print_filled(rt: &HostRuntime, atlas: &Atlas) -> io::Result<()> {
    for page in 1..=MOST_PAGES {
        if let Some(filled) = filled(atlas, page) {
            print!(rt; " {filled}%")?;
        }
    }
    Ok(())
}

// Prints how full the pages are, beside those that are packed by volume.
fn compare(rt: &HostRuntime, best: Heuristic, atlas: &Atlas, by_volume: &Atlas) -> io::Result<()> {
    print!(rt; "the last sprites packed by {best}:")?;
    print_filled(rt, atlas)?;
    print!(rt; ", all by volume:")?;
    print_filled(rt, by_volume)?;
    println!(rt; "\n")
}

// Prints a page, and how full it is.
fn print_page(rt: &HostRuntime, page: u32, filled: u128) -> io::Result<()> {
    println!(rt; "bin page-{page} {PAGE} {PAGE} 1 ({filled}% filled)")
}

fn print_pages(rt: &HostRuntime, atlas: &Atlas) -> io::Result<()> {
    for page in 1..=MOST_PAGES {
        if let Some(filled) = filled(atlas, page) {
            print_page(rt, page, filled)?;
        }
    }
    println!(rt; "")
}

// Prints where on its page a sprite of this kind is.
fn print_place(rt: &HostRuntime, at: &PackedLocation, kind: &str) -> io::Result<()> {
    let (x, y, w, h) = (at.x(), at.y(), at.width(), at.height());
    println!(rt; " {x:>4} {y:>4} 0 {w:>4} {h:>4} 1 {kind}")
}

// Prints a sprite, and where it is.
fn print_sprite(rt: &HostRuntime, placed: &Outstanding<Sprite, u32>) -> io::Result<()> {
    let (kind, nth) = placed.id;
    let name = format!(in rt.alloc(); "{kind}-{nth}")?;
    print!(rt; "{:>5} {name:<11} page-{}", placed.number, placed.bin)?;
    print_place(rt, &placed.location, kind)
}

fn print_sprites(rt: &HostRuntime, atlas: &Atlas) -> io::Result<()> {
    println!(rt; "  no. sprite      page      x    y z    w    h d kind")?;
    for placed in atlas.outstanding() {
        print_sprite(rt, placed)?;
    }
    println!(rt; "")
}

// Loads the kinds into both, and prints the one with the best of all, beside the one by volume.
fn play(
    rt: &HostRuntime,
    title: &str,
    kinds: &[Kind],
    atlas: &mut Atlas,
    by_volume: &mut Atlas,
) -> io::Result<()> {
    load(by_volume, kinds, &[Heuristic::Volume], rt.alloc())?;
    let best = load(atlas, kinds, &Heuristic::ALL, rt.alloc())?;
    println!(rt; "== {title}")?;
    print_pages(rt, atlas)?;
    print_sprites(rt, atlas)?;
    compare(rt, best, atlas, by_volume)
}

// Plays both levels, and unloads the first one between them.
fn play_levels(rt: &HostRuntime, atlas: &mut Atlas, by_volume: &mut Atlas) -> io::Result<()> {
    load(by_volume, &ALWAYS, &[Heuristic::Volume], rt.alloc())?;
    load(atlas, &ALWAYS, &Heuristic::ALL, rt.alloc())?;
    play(rt, "the forest", &FOREST, atlas, by_volume)?;
    unload(atlas, &FOREST, rt.alloc())?;
    unload(by_volume, &FOREST, rt.alloc())?;
    play(rt, "the cave", &CAVE, atlas, by_volume)
}

fn main(rt: HostRuntime) -> io::Result<()> {
    let (mut atlas, mut by_volume) = (Session::new(rt.alloc(), 0), Session::new(rt.alloc(), 0));
    play_levels(&rt, &mut atlas, &mut by_volume)
}
