//! The law of the heuristics that have a name.
ghost use Rattle.std.specs.Prelude.{◌≡◌, ◌∷◌, [], filter};

use crate::box_size_heuristics::Heuristic;

/// A law: `Heuristic::ALL` lists the eight heuristics that have a name, each of them once.
pub fn all_lists_each_heuristic_once()
    // `Heuristic::ALL` has `Volume`, `Height`, `Width`, `Depth`, `SideSum`, `LongestSide`,
    //   `ShortestSide` and `SideArea`, in this order.
    //   [all_lists_each_heuristic_once.volume_is_there_twice]
    ensures listed { Heuristic.ALL ≡
        Heuristic.Volume ∷ Heuristic.Height ∷ Heuristic.Width ∷ Heuristic.Depth ∷
        Heuristic.SideSum ∷ Heuristic.LongestSide ∷ Heuristic.ShortestSide ∷
        Heuristic.SideArea ∷ [] }
    // For each heuristic exactly one entry of `Heuristic::ALL` equals it: the heuristic itself.
    ensures once { (heuristic : Heuristic) →
        filter (⟦<Heuristic as PartialEq>⟧.eq heuristic) Heuristic.ALL ≡ heuristic ∷ [] }
{}
