//! The groups that are excluded with a group.
ghost use Rattle.std.specs.Prelude.{ℕ, ◌≡◌, ◌==◌, false, IfOk, MatchOption};
ghost use Rattle.rectangle_pack_judge.specs.private.Apart.{AreExcludedWith, is_other};

use crate::case::Case;
use std::alloc::{AllocError, Allocator};
use std::collections::BTreeSet;

// The other group of a pair of two, of which this is one.
fn other_of(pair: &(usize, usize), group: usize) -> Option<usize>
    ensures { MatchOption result ((n : ℕ) → is_other pair.now group n ≡ false)
        (λ other. (n : ℕ) → is_other pair.now group n ≡ (n == other)) }
{
    let (one, other) = *pair;
    if one == other {
        return None;
    }
    if one == group {
        return Some(other);
    }
    if other == group {
        return Some(one);
    }
    None
}

/// The groups that are excluded with this one.
pub(crate) fn excluded_with<A: Allocator + Copy>(
    alloc: A,
    case: &Case<'_>,
    group: usize,
) -> Result<BTreeSet<usize, A>, AllocError>
    ensures { IfOk result (AreExcludedWith case.now group) }
{
    let mut groups = BTreeSet::new(alloc);
    for pair in case.excluded {
        if let Some(other) = other_of(pair, group) {
            groups.insert(other)?;
        }
    }
    Ok(groups)
}
