//! What fits of the boxes, and packings of them as they are told.

use crate::packing::{Bins, Boxes, group_of};
use rectangle_pack::{Fitted, Group, Heuristic, Packed, SessionError, Step, StepFault, ToldError};
use std::alloc::AllocError;
use std::io;

pub type Steps = Vec<Step<u32, u32, u32>>;

// Packs what fits by the heuristic of this number, or by the best of all where there is none.
fn pack_fitting<'a>(
    session: &mut Bins,
    boxes: &'a Boxes,
    number: u32,
) -> Result<(Heuristic, Fitted<'a, Packed, Group<u32, u32>>), SessionError> {
    match Heuristic::ALL.get(number as usize) {
        Some(one) => session.pack_fitting_best(boxes, &[*one]),
        None => session.pack_fitting_best(boxes, &Heuristic::ALL),
    }
}

// `fitting N`, behind the number of the heuristic.
fn print_fitted(rt: &HostRuntime, fitted: &Fitted<Packed, Group<u32, u32>>) -> io::Result<()> {
    print!(rt; " {} {}", fitted.packed.first, fitted.packed.count)?;
    for name in &fitted.left {
        match name {
            Group::Grouped(group) => print!(rt; " {group} 0")?,
            Group::Ungrouped(index) => print!(rt; " 0 {index}")?,
        }
    }
    println!(rt; "")?;
    Ok(())
}

pub fn print_fitting(
    rt: &HostRuntime,
    session: &mut Bins,
    boxes: &Boxes,
    number: u32,
) -> io::Result<()> {
    let (best, fitted) = pack_fitting(session, boxes, number)?;
    let best = Heuristic::ALL.iter().position(|one| *one == best);
    print!(rt; "{}", best.unwrap_or(Heuristic::ALL.len()))?;
    print_fitted(rt, &fitted)
}

// `step GROUP I BIN N`: a step more.
pub fn add_step(steps: &mut Steps, numbers: [u32; 4]) -> Result<(), AllocError> {
    let [group, index, bin, number] = numbers;
    let heuristic = Heuristic::ALL.get(number as usize);
    let step = Step {
        group: group_of(group, index),
        bin,
        heuristic: heuristic.copied().unwrap_or(Heuristic::Volume),
    };
    steps.push(step)?;
    Ok(())
}

fn fault_number(fault: StepFault) -> u32 {
    match fault {
        StepFault::UnknownGroup => 0,
        StepFault::UnknownBin => 1,
        StepFault::NamedTwice => 2,
        StepFault::Excluded => 3,
        StepFault::NoRoom => 4,
    }
}

// `told`: packs as the steps say.
pub fn print_told(
    rt: &HostRuntime,
    session: &mut Bins,
    boxes: &Boxes,
    steps: &Steps,
) -> io::Result<()> {
    match session.pack_told(boxes, steps.as_slice()) {
        Ok(packed) => println!(rt; "{} {}", packed.first, packed.count)?,
        Err(ToldError::StepRefused(index, fault)) => {
            println!(rt; "-1 {index} {}", fault_number(fault))?
        }
        Err(_) => println!(rt; "-1")?,
    }
    Ok(())
}
