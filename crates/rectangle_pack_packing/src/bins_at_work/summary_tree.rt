//! The summaries of the bins of a packing, in a tree: the search for the next bin that may hold a
//! box.
ghost use Rattle.std.specs.Prelude.{◌≡◌, ◌+◌, ◌*◌, ◌-◌, ◌/◌, ◌<◌, ◌≤◌, ◌^◌, ◌≢◌, ℕ, None, IfSome, length, take, drop, set, slice_index_or};
ghost use Rattle.std.specs.Bool.{OnTrue};
ghost use Rattle.rectangle_pack_packing.specs.private.SummaryTrees.{IsAbove, IsTree, IsStretch, RuleOut};

use rectangle_pack_lists::gap_list::summary::Summary;
use rectangle_pack_sections::width_height_depth::WidthHeightDepth;
use std::alloc::{AllocError, Allocator};
use std::marker::Model;

/// Where a search for a bin goes on, and how many sections stand in the bins that it passed over.
#[derive(Clone, Copy)]
pub struct Passed {
    /// The index of the next bin.
    pub index: usize,
    /// How many sections the bins before it have.
    pub tests: usize,
}

// The summaries of bins, in their order, and those of stretches of them: a binary tree in an array,
// with `None` where nothing is known. The summaries of the bins are the second half of the array;
// below the node at `n` stand those at `2 * n` and `2 * n + 1`.
#[derive(Drop)]
pub(crate) struct SummaryTree<A: Allocator + Copy> {
    nodes: Vec<Option<Summary>, A>,
}

impl<A: Allocator + Copy> Model for SummaryTree<A> {
    ghost use Rattle.std.specs.Prelude.{◌/◌, List, Option, length, drop};
    ghost use Rattle.rectangle_pack_lists.specs.declared.gap_list.summary.Summary.{Summary};
    ghost use Rattle.rectangle_pack_packing.specs.private.SummaryTrees.{IsTree};

    ghost Value = { List (Option Summary) };

    ghost view = { λ t. drop (length t.nodes.items / 2) t.nodes.items };

    ghost invariant = { λ t. IsTree t.nodes.items };
}

// A node of the tree, and the width of its stretch.
#[derive(Clone, Copy)]
struct Stretch {
    node: usize,
    width: usize,
}

impl Stretch {
    // The stretch that begins where this one ends: of twice its width where the tree has one there.
    fn after(self) -> Self
        requires next { self.node < 2 ^ 64 - 1 }
        requires wide { self.width * (self.node + 1) < 2 ^ 64 }
        ensures after { (place : ℕ) → IsStretch place self.node self.width →
            IsStretch (place + self.width) result.node result.width }
        ensures width { result.width ≤ 2 * self.width }
    {
        let Stretch { node, width } = self;
        let next = node + 1;
        if next % 2 == 0 {
            Stretch {
                node: next / 2,
                width: width * 2,
            }
        } else {
            Stretch { node: next, width }
        }
    }

    // The first half of the stretch, which is not that of one bin.
    fn first_half(self) -> Self
        requires wide { 1 < self.width }
        requires node { 2 * self.node < 2 ^ 64 }
        ensures first { (place : ℕ) → IsStretch place self.node self.width →
            IsStretch place result.node result.width }
        ensures width { result.width < self.width }
    {
        Stretch {
            node: self.node * 2,
            width: self.width / 2,
        }
    }
}

impl<A: Allocator + Copy> SummaryTree<A> {
    // A tree of no bins. Takes no memory.
    pub(crate) fn new(alloc: A) -> Self
        ensures { (i : ℕ) → slice_index_or result i None ≡ None }
    {
        SummaryTree {
            nodes: Vec::new(alloc),
        }
    }

    // How many bins there is room for.
    pub(crate) fn len(&self) -> usize
        ensures bins { result ≡ length self.now }
        ensures small { result + result < 2 ^ 64 }
    {
        self.nodes.len() / 2
    }

    // Makes room for `bins` bins, of which nothing is known. Fails only when memory is refused.
    pub(crate) fn make_room(&mut self, bins: usize) -> Result<(), AllocError>
        ensures { (i : ℕ) → slice_index_or self.new i None ≡ None }
    {
        self.nodes.clear();
        let nodes = bins.checked_mul(2).ok_or(AllocError)?;
        self.nodes.resize(nodes, None)?;
        Ok(())
    }

    // Whether there is room for a summary of the bin at this index, and none is known.
    pub(crate) fn lacks(&self, index: usize) -> bool
        ensures { OnTrue result (index < length self.now) }
    {
        index < self.len() && self.nodes[self.len() + index].is_none()
    }

    // Writes the summary of the bin at this index. Takes no memory.
    pub(crate) fn put(&mut self, index: usize, summary: Option<Summary>)
        requires { index < length self.old }
        ensures here { slice_index_or self.new index None ≡ summary }
        ensures elsewhere { (i : ℕ) → i ≢ index →
            slice_index_or self.new i None ≡ slice_index_or self.old i None }
    {
        let leaf = self.len() + index;
        write(&mut self.nodes, leaf, summary);
    }

    // Passes over bins from this index on, as long as the summaries show that none of their sections
    // holds the size.
    pub(crate) fn next(&self, from: usize, size: &WidthHeightDepth) -> Passed
        ensures from { from ≤ result.index }
        ensures end { from < result.index → result.index ≤ length self.now }
        ensures passed { RuleOut (take (result.index - from) (drop from self.now)) size.now
            result.tests }
    {
        let mut passed = Passed {
            index: from,
            tests: 0,
        };
        let end = self.len();
        if from >= end {
            return passed;
        }
        let mut stretch = Stretch {
            node: end + from,
            width: 1,
        };
        while passed.index < end {
            match self.pass(&passed, &stretch, size) {
                Some(next) => {
                    passed = next;
                    stretch = stretch.after();
                }
                None => {
                    if stretch.width == 1 {
                        break;
                    }
                    stretch = stretch.first_half();
                }
            }
        }
        passed
    }

    // Passes over the stretch too, where it does not go beyond the last bin and its summary shows
    // that no section there holds the size.
    #[inline(always)]
    fn pass(&self, passed: &Passed, stretch: &Stretch, size: &WidthHeightDepth) -> Option<Passed>
        requires at { IsStretch (length self.now + passed.now.index) stretch.now.node
            stretch.now.width }
        requires before { passed.now.index < length self.now }
        ensures index { IfSome result (λ p. p.index ≡ passed.now.index + stretch.now.width) }
        ensures end { IfSome result (λ p. p.index ≤ length self.now) }
        ensures passed { (from : ℕ) → from ≤ passed.now.index →
            RuleOut (take (passed.now.index - from) (drop from self.now)) size.now
            passed.now.tests →
            IfSome result
            (λ p. RuleOut (take (p.index - from) (drop from self.now)) size.now p.tests) }
    {
        if self.len() - passed.index < stretch.width {
            return None;
        }
        let summary = self.nodes[stretch.node]?;
        if summary.may_hold(size) {
            return None;
        }
        Some(Passed {
            index: passed.index + stretch.width,
            tests: passed.tests.checked_add(summary.count())?,
        })
    }
}

// What is known of both.
fn both(one: Option<Summary>, other: Option<Summary>) -> Option<Summary>
    ensures { IsAbove result one other }
{
    let (one, other) = (one?, other?);
    one.count().checked_add(other.count())?;
    Some(one.join(&other))
}

// Writes the summary of a bin, and those above it anew.
fn write<A: Allocator>(nodes: &mut Vec<Option<Summary>, A>, leaf: usize, summary: Option<Summary>)
    requires tree { IsTree nodes.old.items }
    requires leaf { length nodes.old.items / 2 ≤ leaf }
    requires within { leaf < length nodes.old.items }
    ensures tree { IsTree nodes.new.items }
    ensures half { length nodes.new.items / 2 ≡ length nodes.old.items / 2 }
    ensures leaves { drop (length nodes.old.items / 2) nodes.new.items ≡
        set (drop (length nodes.old.items / 2) nodes.old.items)
        (leaf - length nodes.old.items / 2) summary }
{
    nodes[leaf] = summary;
    let mut node = leaf;
    while node > 1 {
        node /= 2;
        let joined = both(nodes[2 * node], nodes[2 * node + 1]);
        if joined.is_none() && nodes[node].is_none() {
            return;
        }
        nodes[node] = joined;
    }
}
