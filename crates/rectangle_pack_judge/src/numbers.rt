//! The groups of a case, numbered anew from 0 on.
ghost use Rattle.std.specs.Prelude.{◌≡◌, ◌++◌, ◌∷◌, [], map, IfOk, OnOk};
ghost use Rattle.rectangle_pack_judge.specs.private.Numbers.{AreNumbers, number_in, pairs_in, renumbered};

use crate::case::Entry;
use std::alloc::{AllocError, Allocator};
use std::collections::BTreeMap;

/// A number for each group of the entries, from 0 on.
pub(crate) fn numbers_of<A: Allocator + Copy>(
    alloc: A,
    entries: &[Entry],
) -> Result<BTreeMap<usize, usize, A>, AllocError>
    ensures { IfOk result (λ numbers. AreNumbers entries.now numbers.entries) }
{
    let mut numbers = BTreeMap::new(alloc);
    for entry in entries {
        if !numbers.contains_key(&entry.group) {
            let next = numbers.len();
            numbers.insert(entry.group, next)?;
        }
    }
    Ok(numbers)
}

// The number of a group; 0 where it has none.
fn number_of<A: Allocator>(numbers: &BTreeMap<usize, usize, A>, group: usize) -> usize
    ensures { result ≡ number_in numbers.now.entries group }
{
    match numbers.get(&group) {
        Some(number) => *number,
        None => 0,
    }
}

/// The entries, each in the group of this number.
pub(crate) fn renumbered<A: Allocator>(
    alloc: A,
    entries: &[Entry],
    numbers: &BTreeMap<usize, usize, A>,
) -> Result<Vec<Entry, A>, AllocError>
    ensures { IfOk result (λ all. all.items ≡ map (renumbered numbers.now.entries) entries.now) }
{
    let mut all = Vec::with_capacity(alloc, entries.len())?;
    for entry in entries {
        let Entry { group, turning } = *entry;
        let group = number_of(numbers, group);
        all.push(Entry { group, turning })?;
    }
    Ok(all)
}

// Adds a pair by its numbers, where both groups have one.
fn add_pair<A: Allocator>(
    pairs: &mut Vec<(usize, usize), A>,
    pair: (usize, usize),
    numbers: &BTreeMap<usize, usize, A>,
) -> Result<(), AllocError>
    ensures { OnOk result (pairs.new.items ≡
        pairs.old.items ++ pairs_in numbers.now.entries (pair ∷ [])) }
{
    if let (Some(one), Some(other)) = (numbers.get(&pair.0), numbers.get(&pair.1)) {
        pairs.push((*one, *other))?;
    }
    Ok(())
}

/// The pairs of groups by these numbers, of which both have one.
pub(crate) fn renumbered_pairs<A: Allocator>(
    alloc: A,
    excluded: &[(usize, usize)],
    numbers: &BTreeMap<usize, usize, A>,
) -> Result<Vec<(usize, usize), A>, AllocError>
    ensures { IfOk result (λ all. all.items ≡ pairs_in numbers.now.entries excluded.now) }
{
    let mut all = Vec::new(alloc);
    for pair in excluded {
        add_pair(&mut all, *pair, numbers)?;
    }
    Ok(all)
}
