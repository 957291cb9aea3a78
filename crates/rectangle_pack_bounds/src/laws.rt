//! Laws of rates, of weighted intervals and of arrangements.
ghost use Rattle.std.specs.Prelude.{ℕ, ◌*◌, ◌/◌, ◌<◌, ◌≤◌, List, All, Option, map, sum_by};
ghost use Rattle.std.specs.Map.{values_of};
ghost use Rattle.rectangle_pack_sections.specs.Boxes.{Size, Cuboid, IsInside, volume_of};
ghost use Rattle.rectangle_pack_sections.specs.Counting.{AreAllApart};
ghost use Rattle.rectangle_pack_bounds.specs.DualFeasible.{IsDualFeasible, Interval, IsStack, Rates, AreDualFeasible, rate_of, rounded, in_parts, in_pieces};
ghost use Rattle.rectangle_pack_bounds.specs.declared.turning.TurningBox.{TurningBox};
ghost use Rattle.rectangle_pack_bounds.specs.Turning.{ways};
ghost use Rattle.rectangle_pack_bounds.specs.Arrangements.{AreNeeded, IsArrangement, IsMetBy, Put, bins_used};
ghost use Rattle.rectangle_pack_bounds.specs.Bounds.{IsShown};

/// A law: intervals on an axis, and boxes in a bin, are rated no higher than scales allow.
pub fn bins_are_bounded()
    // Intervals within a length, whose weights add up to at most `most` at each place: their rates,
    //   times their weights, add up to at most `most` times the scale.
    ensures intervals { (along scale most : ℕ) (rate : ℕ → ℕ) (intervals : List Interval) →
        IsDualFeasible along rate scale →
        IsStack along most intervals →
        sum_by (λ i. i.weight * rate i.long) intervals ≤ most * scale }
    // Boxes inside a bin, no two of which share a cell, are rated at most the product of the three
    //   scales, together.
    ensures boxes { (bin scales : Size) (rates : Rates) (boxes : List Cuboid) →
        AreDualFeasible bin rates scales →
        All (IsInside bin) boxes →
        AreAllApart boxes →
        sum_by (λ b. rate_of rates b.whd) boxes ≤ volume_of scales }
{}

/// A law: three families of rates are dual feasible.
pub fn rates_are_dual_feasible()
    // Rounded lengths, where the least one that counts is at most half of the axis.
    ensures rounded { (along least : ℕ) → 2 * least ≤ along →
        IsDualFeasible along (rounded along least) along }
    // Lengths in parts, on an axis that is not empty.
    ensures in_parts { (along parts : ℕ) → 0 < along →
        IsDualFeasible along (in_parts along parts) (parts * along) }
    // Lengths in pieces that are not empty.
    ensures in_pieces { (along piece : ℕ) → 0 < piece →
        IsDualFeasible along (in_pieces along piece) (2 * (along / piece)) }
{}

/// A law: what is shown of boxes is so of each arrangement of them, whoever made it, and whatever
/// the ids of the bins are.
pub fn shown_bins_are_needed<Entry, BinId: Ord>()
    // What is shown of the boxes of entries, each arrangement of the entries meets, as long as it
    //   uses `apart` bins or more.
    ensures met { (box_of : Entry → TurningBox) (entries : List Entry) →
        (bins : List (BinId × Size)) (puts : List (Put Entry BinId)) (apart : ℕ) →
        (least : Option ℕ) →
        IsShown (values_of bins) (map box_of entries) apart least →
        IsArrangement BinId.cmp (λ e. ways (box_of e)) bins entries puts →
        apart ≤ bins_used BinId.cmp puts →
        IsMetBy least (bins_used BinId.cmp puts) }
    // Where so many bins are shown to be needed, and nothing else is known, no arrangement uses
    //   fewer; where no number is shown, there is no arrangement.
    ensures needed { (bins : List (BinId × Size)) (boxes : List TurningBox) (least : Option ℕ) →
        IsShown (values_of bins) boxes 0 least →
        AreNeeded BinId.cmp ways bins boxes least }
{}
