//! The laws of weights, each the contract of a function that does nothing.

ghost use Rattle.std.specs.Prelude.{◌≡◌, ℕ, ◌+◌, ◌/◌, ◌<◌, ◌≤◌, ◌^◌, ◌==◌, ◌↔◌, All, List, count_by, length, max, slice_index, sum, take};
ghost use Rattle.std.specs.List.{range_with_len};
ghost use Rattle.weight_tables.specs.Weights.{Selects, selected, weight_before};
ghost use Rattle.weight_tables.specs.Harmonic.{harmonic_weights};

/// Each number below the sum of the weights selects a group, and no number selects two groups.
pub fn a_number_selects_one_group()
    ensures one { (weights : List ℕ) (x : ℕ) → x < sum weights → Selects weights x (selected weights x) }
    ensures no_other { (weights : List ℕ) (x g h : ℕ) → Selects weights x g → Selects weights x h → g ≡ h }
{}

/// A group is selected by as many numbers as its weight. They begin at the sum of the weights before the group.
pub fn a_group_takes_its_weight_of_the_numbers()
    ensures place { (weights : List ℕ) (x g : ℕ) → g < length weights →
        Selects weights x g
        ↔ ((weight_before weights g ≤ x) × (x < weight_before weights g + slice_index weights g)) }
    ensures count { (weights : List ℕ) (g : ℕ) → g < length weights →
        count_by (λ x. selected weights x == g) (range_with_len 0 (sum weights)) ≡ slice_index weights g }
{}

/// There are as many harmonic weights as their size says. The weight of group g is 10^9 / (g + 1)^power, rounded down, and at least
/// 1. No weight is greater than one before it. The sum of up to 4096 harmonic weights is at most 2^40.
pub fn harmonic_weights_fall()
    ensures size { (size power : ℕ) → length (harmonic_weights size power) ≡ size }
    ensures each { (size power g : ℕ) → g < size →
        slice_index (harmonic_weights size power) g ≡ max 1 (10 ^ 9 / (g + 1) ^ power) }
    ensures positive { (size power : ℕ) → All (λ weight. 1 ≤ weight) (harmonic_weights size power) }
    ensures falling { (size power g h : ℕ) → g ≤ h → h < size →
        slice_index (harmonic_weights size power) h ≤ slice_index (harmonic_weights size power) g }
    ensures small { (size power : ℕ) → size ≤ 4096 → 1 ≤ power → sum (harmonic_weights size power) ≤ 2 ^ 40 }
{}
