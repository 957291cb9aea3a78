//! The least rates of boxes, added up.
ghost use Rattle.std.specs.Prelude.{◌≡◌, ◌-◌, ◌^◌, length, min};
ghost use Rattle.rectangle_pack_bounds.specs.Ratings.{capped};
ghost use Rattle.rectangle_pack_bounds.specs.private.Rates.{least_added, products};

/// The least rates of boxes, added up, or the greatest `u128` where it is more. The rates along
/// each axis are those of the ways in which the boxes fit, box by box. Sums of 64 bits come first,
/// since they take less than half of the time, and most sums are no greater.
pub(crate) fn least_rates(are_first: &[bool], width: &[u64], height: &[u64], depth: &[u64]) -> u128
    requires widths { length width.now ≡ length are_first.now }
    requires heights { length height.now ≡ length are_first.now }
    requires depths { length depth.now ≡ length are_first.now }
    ensures { result ≡
        capped (least_added 0 are_first.now (products width.now height.now depth.now)) }
{
    let sum = small_sum(are_first, width, height, depth);
    if sum < u64::MAX {
        sum as u128
    } else {
        large_sum(are_first, width, height, depth)
    }
}

// The same, or the greatest `u64` where it is more.
fn small_sum(are_first: &[bool], width: &[u64], height: &[u64], depth: &[u64]) -> u64
    requires widths { length width.now ≡ length are_first.now }
    requires heights { length height.now ≡ length are_first.now }
    requires depths { length depth.now ≡ length are_first.now }
    ensures { result ≡ min
        (least_added 0 are_first.now (products width.now height.now depth.now)) (2 ^ 64 - 1) }
{
    let mut sum: u64 = 0;
    let mut least: u64 = 0;
    for way in 0..are_first.len() {
        let area = width[way].saturating_mul(height[way]);
        let rate = area.saturating_mul(depth[way]);
        if are_first[way] {
            sum = sum.saturating_add(least);
            least = rate;
        } else {
            least = least.min(rate);
        }
    }
    sum.saturating_add(least)
}

// The same, or the greatest `u128` where it is more.
fn large_sum(are_first: &[bool], width: &[u64], height: &[u64], depth: &[u64]) -> u128
    requires widths { length width.now ≡ length are_first.now }
    requires heights { length height.now ≡ length are_first.now }
    requires depths { length depth.now ≡ length are_first.now }
    ensures { result ≡
        capped (least_added 0 are_first.now (products width.now height.now depth.now)) }
{
    let mut sum: u128 = 0;
    let mut least: u128 = 0;
    for way in 0..are_first.len() {
        let area = width[way] as u128 * height[way] as u128;
        let product = area.saturating_mul(depth[way] as u128);
        if are_first[way] {
            sum = sum.saturating_add(least);
            least = product;
        } else {
            least = least.min(product);
        }
    }
    sum.saturating_add(least)
}
