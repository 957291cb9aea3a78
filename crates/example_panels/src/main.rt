//! A sheet cutter's order. The best of the library's heuristics needs as few sheets as the shop's own
//! rule, two panels are called off for a larger one, and each sheet gets its cutting plan, as steps at
//! the saw.
#![tactic(auto)]

ghost use Rattle.std.specs.Prelude.{◌<◌, length};

use rectangle_pack::{
    Axis, BinStats, CutStep, GroupedRectsToPlace, Heuristic, Outstanding, PackedLocation,
    RectToInsert, Session, SessionError, WidthHeightDepth, volume_heuristic,
};
use std::alloc::{AllocError, Global};
use std::cmp::Ordering;
use std::io;

// The sheets that there are, and one of them, in millimetres.
const SHEETS: u32 = 5;

const WIDTH: u32 = 2800;

const HEIGHT: u32 = 2070;

// Panels of one size: the name, how many, and how wide and high each is.
type Panels = (&'static str, u32, u32, u32);

const ORDER: [Panels; 6] = [
    ("side", 12, 560, 720),
    ("shelf", 16, 520, 300),
    ("top", 6, 1200, 600),
    ("door", 10, 396, 716),
    ("back", 8, 580, 700),
    ("plinth", 8, 900, 100),
];

// A panel is known by the name of its size and its number among those of that size.
type Panel = (&'static str, u32);

type Order = GroupedRectsToPlace<Panel, u32>;

type Cutting = Session<Panel, u32>;

// A part of a sheet, by its left, lower, right and upper end.
type Part = (u32, u32, u32, u32);

fn longest_side(piece: WidthHeightDepth) -> u32 {
    piece.width().max(piece.height())
}

// How long the longest of the strips is that a cut leaves.
fn longest(pieces: [WidthHeightDepth; 3]) -> u32 {
    let [right, above, behind] = pieces;
    longest_side(right)
        .max(longest_side(above))
        .max(longest_side(behind))
}

// The shop's rule: the cut is better that leaves the longest strip.
fn longest_strip<H>(a: [WidthHeightDepth; 3], b: [WidthHeightDepth; 3], _: &H) -> Ordering {
    longest(a).cmp(&longest(b))
}

fn add_sheets(cutting: &mut Cutting) -> Result<(), SessionError> {
    for sheet in 1..=SHEETS {
        cutting.add_bin(sheet, WIDTH, HEIGHT, 1)?;
    }
    Ok(())
}

// Cuts the order by the shop's rule.
fn cut_by_rule(cutting: &mut Cutting, order: &Order) -> Result<(), SessionError> {
    cutting.pack(order, &volume_heuristic, &longest_strip)?;
    Ok(())
}

// Adds the panels of one size.
fn add_panels(order: &mut Order, panels: &Panels) -> Result<(), AllocError> {
    let (name, count, width, height) = *panels;
    for number in 1..=count {
        order.push_rect((name, number), None, RectToInsert::new(width, height, 1))?;
    }
    Ok(())
}

fn add_all(order: &mut Order) -> Result<(), AllocError> {
    for panels in &ORDER {
        add_panels(order, panels)?;
    }
    Ok(())
}

// Prints a sheet with its waste.
fn print_sheet(rt: &HostRuntime, sheet: u32, stats: BinStats) -> io::Result<()> {
    let part = stats.free_volume.saturating_mul(100);
    let waste = part.checked_div(stats.bin_volume).unwrap_or(0);
    println!(rt; "bin sheet-{sheet} {WIDTH} {HEIGHT} 1 ({waste}% waste)")
}

fn print_sheets(rt: &HostRuntime, cutting: &Cutting) -> io::Result<()> {
    for sheet in 1..=SHEETS {
        if let Some(stats) = cutting.stats(&sheet) {
            print_sheet(rt, sheet, stats)?;
        }
    }
    println!(rt; "")
}

// Prints where on its sheet a panel of this size is.
fn print_place(rt: &HostRuntime, at: &PackedLocation, size: &str) -> io::Result<()> {
    let (x, y, w, h) = (at.x(), at.y(), at.width(), at.height());
    println!(rt; " {x:>4} {y:>4} 0 {w:>4} {h:>4} 1 {size}")
}

// Prints a panel, and where it is.
fn print_panel(rt: &HostRuntime, placed: &Outstanding<Panel, u32>) -> io::Result<()> {
    let (size, nth) = placed.id;
    let name = format!(in rt.alloc(); "{size}-{nth}")?;
    print!(rt; "{:>5} {name:<10} sheet-{}", placed.number, placed.bin)?;
    print_place(rt, &placed.location, size)
}

fn print_panels(rt: &HostRuntime, cutting: &Cutting) -> io::Result<()> {
    println!(rt; "  no. panel      sheet      x    y z    w    h d size")?;
    for placed in cutting.outstanding() {
        print_panel(rt, placed)?;
    }
    println!(rt; "")
}

// Prints the sheets with their waste, and where each panel is.
fn print(rt: &HostRuntime, cutting: &Cutting) -> io::Result<()> {
    print_sheets(rt, cutting)?;
    print_panels(rt, cutting)
}

// The parts that a cut leaves: the one to the right or above, and the other.
fn halves(axis: Axis, place: u32, part: Part) -> [Part; 2] {
    let (left, low, right, high) = part;
    if axis == Axis::X {
        [(place, low, right, high), (left, low, place, high)]
    } else {
        [(left, place, right, high), (left, low, right, place)]
    }
}

fn print_cut(rt: &HostRuntime, axis: Axis, place: u32, part: Part) -> io::Result<()> {
    let (left, low, ..) = part;
    if axis == Axis::X {
        println!(rt; "cut {} mm from the left", place.abs_diff(left))
    } else {
        println!(rt; "cut {} mm from below", place.abs_diff(low))
    }
}

// The panel whose left and lower end are here, if there is one.
fn panel_at(cutting: &Cutting, sheet: u32, left: u32, low: u32) -> Option<Panel> {
    for placed in cutting.outstanding() {
        let at = &placed.location;
        if placed.bin == sheet && at.x() == left && at.y() == low {
            return Some(placed.id);
        }
    }
    None
}

// Prints what a part is that is not cut: a panel, or an offcut.
fn print_leaf(rt: &HostRuntime, sheet: u32, part: Part, cutting: &Cutting) -> io::Result<()> {
    let (left, low, ..) = part;
    match panel_at(cutting, sheet, left, low) {
        Some((size, nth)) => println!(rt; "is {size}-{nth}"),
        None => println!(rt; "is an offcut"),
    }
}

// Prints the number of a step, and the sides of the part that it is about.
fn print_part(rt: &HostRuntime, number: u32, part: Part) -> io::Result<()> {
    let (w, h) = (part.2.abs_diff(part.0), part.3.abs_diff(part.1));
    print!(rt; "{number:>4}. {w:>4} x {h:<4} ")
}

// Prints the steps of a sheet's cutting plan. Parts wait on a pile.
fn print_steps(
    rt: &HostRuntime,
    sheet: u32,
    plan: &[CutStep],
    pile: &mut Vec<Part>,
    cutting: &Cutting,
) -> io::Result<()> {
    let mut number = 0u32;
    for step in plan {
        let Some(part) = pile.pop() else { break };
        number = number.saturating_add(1);
        print_part(rt, number, part)?;
        match *step {
            CutStep::Cut { axis, place } => {
                print_cut(rt, axis, place, part)?;
                pile.extend_from_slice(&halves(axis, place, part))?;
            }
            CutStep::Leaf => print_leaf(rt, sheet, part, cutting)?,
        }
    }
    Ok(())
}

fn print_plan(rt: &HostRuntime, sheet: u32, cutting: &Cutting) -> io::Result<()> {
    println!(rt; "-- sheet {sheet}")?;
    let mut pile = vec![in rt.alloc(); (0, 0, WIDTH, HEIGHT)]?;
    match cutting.cut_plan(&sheet)? {
        Some(plan) => print_steps(rt, sheet, plan.as_slice(), &mut pile, cutting),
        None => println!(rt; "no straight cuts part it"),
    }
}

fn print_plans(rt: &HostRuntime, cutting: &Cutting) -> io::Result<()> {
    for sheet in 1..=SHEETS {
        print_plan(rt, sheet, cutting)?;
    }
    Ok(())
}

// The number of a panel that is placed, and its sheet.
fn find(cutting: &Cutting, panel: Panel) -> Option<(u64, u32)> {
    for placed in cutting.outstanding() {
        if placed.id == panel {
            return Some((placed.number, placed.bin));
        }
    }
    None
}

// Gives a panel back, and joins what it leaves.
fn call_off(cutting: &mut Cutting, panel: Panel) -> Result<(), SessionError> {
    let Some((number, sheet)) = find(cutting, panel) else {
        return Ok(());
    };
    cutting.release(number)?;
    cutting.coalesce_all(&sheet)
}

fn cut_desk(cutting: &mut Cutting, alloc: Global) -> Result<(), SessionError> {
    let mut desk: Order = GroupedRectsToPlace::new(alloc);
    desk.push_rect(("desk", 1), None, RectToInsert::new(1100, 700, 1))?;
    cut_by_rule(cutting, &desk)
}

// Gives two sides back, and cuts a desk from what they leave.
fn exchange(cutting: &mut Cutting, alloc: Global) -> Result<(), SessionError> {
    call_off(cutting, ("side", 1))?;
    call_off(cutting, ("side", 2))?;
    cut_desk(cutting, alloc)
}

fn has_panels(cutting: &Cutting, sheet: u32) -> bool {
    match cutting.stats(&sheet) {
        Some(stats) => stats.placements > 0,
        None => false,
    }
}

// How many sheets have panels.
fn used(cutting: &Cutting) -> u32 {
    let mut used = 0u32;
    for sheet in 1..=SHEETS {
        used = used.saturating_add(u32::from(has_panels(cutting, sheet)));
    }
    used
}

// Cuts the order with the best of these heuristics; which one it is.
fn cut_by(
    heuristics: &[Heuristic],
    order: &Order,
    cutting: &mut Cutting,
) -> Result<Heuristic, SessionError>
    requires { 0 < length heuristics.now }
{
    add_sheets(cutting)?;
    let (best, _) = cutting.pack_best(order, heuristics)?;
    Ok(best)
}

// Prints how many sheets the order takes with a heuristic.
fn print_used(rt: &HostRuntime, heuristic: Heuristic, order: &Order) -> io::Result<()> {
    let mut cutting: Cutting = Session::new(rt.alloc(), 1);
    cut_by(&[heuristic], order, &mut cutting)?;
    println!(rt; "{heuristic}: {} sheets", used(&cutting))
}

// Prints how many sheets the order takes with each of the library's heuristics.
fn compare(rt: &HostRuntime, order: &Order) -> io::Result<()> {
    for heuristic in &Heuristic::ALL {
        print_used(rt, *heuristic, order)?;
    }
    println!(rt; "")
}

// Cuts the order with the best of these.
fn by_the_best(rt: &HostRuntime, order: &Order, cutting: &mut Cutting) -> io::Result<()> {
    let best = cut_by(&Heuristic::ALL, order, cutting)?;
    println!(rt; "== the best of all heuristics, {best}")?;
    print(rt, cutting)
}

// Cuts the order by the shop's rule, exchanges panels, and plans the cuts.
fn by_the_rule(rt: &HostRuntime, order: &Order, cutting: &mut Cutting) -> io::Result<()> {
    add_sheets(cutting)?;
    cut_by_rule(cutting, order)?;
    println!(rt; "== the shop's rule, the longest strip")?;
    print(rt, cutting)?;
    exchange(cutting, rt.alloc())?;
    println!(rt; "== two sides are called off for a desk")?;
    print(rt, cutting)?;
    print_plans(rt, cutting)
}

// Cuts the order in each of these ways.
fn cut(
    rt: &HostRuntime,
    order: &mut Order,
    best: &mut Cutting,
    ruled: &mut Cutting,
) -> io::Result<()> {
    add_all(order)?;
    compare(rt, order)?;
    by_the_best(rt, order, best)?;
    by_the_rule(rt, order, ruled)
}

fn main(rt: HostRuntime) -> io::Result<()> {
    let mut order: Order = GroupedRectsToPlace::new(rt.alloc());
    let mut best: Cutting = Session::new(rt.alloc(), 1);
    let mut ruled: Cutting = Session::new(rt.alloc(), 1);
    cut(&rt, &mut order, &mut best, &mut ruled)
}
