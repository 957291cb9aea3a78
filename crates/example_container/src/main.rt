//! Containers: the crates of each customer go into one container, and two customers may not share
//! one. Where the containers that are there do not take all, another one is ordered.
#![tactic(auto)]

use rectangle_pack::{
    BinStats, Group, GroupedRectsToPlace, Outstanding, PackedLocation, RectToInsert, Session,
    SessionError, contains_smallest_box, volume_heuristic,
};
use std::alloc::{AllocError, Global};
use std::io;

// The inside of a container in decimetres: wide, high, long.
const WIDTH: u32 = 23;

const HEIGHT: u32 = 23;

const LENGTH: u32 = 58;

// The crates of one size for a customer: which lot this is, how many they are, and how wide, high
// and deep each is.
type Lot = (&'static str, u32, u32, u32, u32, u32);

const LOTS: [Lot; 9] = [
    ("dairy", 1, 8, 11, 10, 12),
    ("dairy", 2, 6, 7, 9, 8),
    ("paint", 3, 10, 11, 8, 12),
    ("paint", 4, 6, 7, 7, 6),
    ("tools", 5, 12, 7, 10, 8),
    ("tools", 6, 4, 11, 11, 12),
    ("cloth", 7, 9, 7, 7, 12),
    ("cloth", 8, 8, 11, 6, 8),
    ("glass", 9, 10, 6, 11, 6),
];

// A crate is known by its customer, its lot and its number in the lot.
type Crate = (&'static str, u32, u32);

type Crates = GroupedRectsToPlace<Crate, &'static str>;

type Loading = Session<Crate, u32>;

// Adds the crates of a lot, to the group of its customer.
fn add_lot(crates: &mut Crates, lot: &Lot, alloc: Global) -> Result<(), AllocError> {
    let (customer, number, count, width, height, depth) = *lot;
    for nth in 1..=count {
        let group = vec![in alloc; customer]?;
        let size = RectToInsert::new(width, height, depth);
        crates.push_rect((customer, number, nth), Some(group), size)?;
    }
    Ok(())
}

// Adds all lots. Paint and dairy products may not share a container.
fn add_lots(crates: &mut Crates, alloc: Global) -> Result<(), AllocError> {
    for lot in &LOTS {
        add_lot(crates, lot, alloc)?;
    }
    crates.exclude(Group::Grouped("paint"), Group::Grouped("dairy"))
}

// Packs all crates, and orders another container where those that are there are not enough.
fn pack(rt: &HostRuntime, loading: &mut Loading, crates: &Crates) -> io::Result<()> {
    for container in 1..=6 {
        loading.add_bin(container, WIDTH, HEIGHT, LENGTH)?;
        match loading.pack(crates, &volume_heuristic, &contains_smallest_box) {
            Err(SessionError::NotEnoughBinSpace) => {
                println!(rt; "refused: container {container} is not enough, one more is ordered")?;
            }
            packed => return println!(rt; "packed: {} crates", packed?.count),
        }
    }
    Err(SessionError::NotEnoughBinSpace.into())
}

fn load(rt: &HostRuntime, loading: &mut Loading) -> io::Result<()> {
    let mut crates: Crates = GroupedRectsToPlace::new(rt.alloc());
    add_lots(&mut crates, rt.alloc())?;
    pack(rt, loading, &crates)
}

// Prints how many litres `count` of these are.
fn print_volume(rt: &HostRuntime, count: usize, what: &str, litres: u128) -> io::Result<()> {
    println!(rt; "    {count:>2} {what}: {litres} l")
}

// Prints the statistics of a container, in litres.
fn print_container(rt: &HostRuntime, container: u32, stats: BinStats) -> io::Result<()> {
    let part = stats.placed_volume.saturating_mul(100);
    let percent = part.checked_div(stats.bin_volume).unwrap_or(0);
    println!(rt; "bin container-{container} {WIDTH} {HEIGHT} {LENGTH} ({percent}% filled)")?;
    print_volume(rt, stats.placements, "crates", stats.placed_volume)?;
    print_volume(rt, stats.free_sections, "free sections", stats.free_volume)
}

fn print_containers(rt: &HostRuntime, loading: &Loading) -> io::Result<()> {
    for container in loading.bins().keys() {
        if let Some(stats) = loading.stats(container) {
            print_container(rt, *container, stats)?;
        }
    }
    Ok(())
}

// Prints where a crate stands, and its size.
fn print_place(rt: &HostRuntime, at: &PackedLocation) -> io::Result<()> {
    print!(rt; " {:>3} {:>2} {:>2}", at.x(), at.y(), at.z())?;
    print!(rt; " {:>3} {:>2} {:>2}", at.width(), at.height(), at.depth())
}

fn print_crate(rt: &HostRuntime, placed: &Outstanding<Crate, u32>) -> io::Result<()> {
    let (customer, lot, nth) = placed.id;
    let name = format!(in rt.alloc(); "{customer}-{lot}.{nth}")?;
    print!(rt; "{:>4} {name:<10} container-{}", placed.number, placed.bin)?;
    print_place(rt, &placed.location)?;
    println!(rt; " {customer}")
}

fn print_crates(rt: &HostRuntime, loading: &Loading) -> io::Result<()> {
    println!(rt; "\n no. crate      container     x  y  z   w  h  d customer")?;
    for placed in loading.outstanding() {
        print_crate(rt, placed)?;
    }
    Ok(())
}

fn print(rt: &HostRuntime, loading: &Loading) -> io::Result<()> {
    println!(rt; "== loaded")?;
    print_containers(rt, loading)?;
    print_crates(rt, loading)
}

fn main(rt: HostRuntime) -> io::Result<()> {
    let mut loading = Session::new(rt.alloc(), 1);
    load(&rt, &mut loading)?;
    print(&rt, &loading)
}
