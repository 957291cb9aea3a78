//! Packings that are searched for.

use crate::bound::AllTurns;
use crate::packing::{Bins, Boxes};
use rectangle_pack::{Group, Packed, SearchOptions, Searched, SessionError};
use std::collections::BTreeMap;
use std::io;
use std::time::Instant;

// What is found: the first number and how many there are, the bins that are used, how many are
// needed, or -1 where there is no such number, whether that is optimal, the tries, and how many groups
// are left.
fn print_found(rt: &HostRuntime, found: &Searched<Packed, Group<u32, u32>>) -> io::Result<()> {
    let Packed { first, count } = found.packed;
    print!(rt; "{first} {count} {} ", found.used)?;
    match found.least {
        Some(least) => print!(rt; "{least}")?,
        None => print!(rt; "-1")?,
    }
    let is_optimal = u32::from(found.is_optimal);
    print!(rt; " {is_optimal} {} {}", found.tries, found.left.len())?;
    Ok(())
}

// `search N S L`: packs what is found in N tries with the seed S, where something may be left if L is
// not 0; and how many microseconds it took.
pub fn print_search(
    rt: &HostRuntime,
    session: &mut Bins,
    boxes: &Boxes,
    turns: &AllTurns,
    numbers: [u32; 4],
) -> io::Result<()> {
    let [tries, seed, may_leave, _] = numbers;
    let costs = BTreeMap::new(rt.alloc());
    let options = SearchOptions {
        tries: tries as u64,
        seed: seed as u64,
        may_leave: may_leave != 0,
        turns,
        costs: &costs,
    };
    let start = Instant::now(rt)?;
    match session.pack_searched(boxes, &options, |_| true) {
        Ok(found) => {
            let took = start.elapsed(rt)?;
            print_found(rt, &found)?;
            println!(rt; " {}", took.as_micros())?;
        }
        Err(SessionError::NotEnoughBinSpace) => println!(rt; "-1")?,
        Err(error) => return Err(io::Error::from(error)),
    }
    Ok(())
}
