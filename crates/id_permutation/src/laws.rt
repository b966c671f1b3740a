//! The laws of orders, and of the search for a least number. Each is the contract of a function that does nothing.

ghost use Rattle.std.specs.Prelude.{◌≡◌, ◌<◌, ◌≤◌, ℕ, Bool, false, true};
ghost use Rattle.id_permutation.specs.Least.{least};
ghost use Rattle.id_permutation.specs.Walk.{IsBijectionBelow, AreInversesBelow};
ghost use Rattle.id_permutation.specs.Order.{Arrangement, place_in, number_at};
ghost use Rattle.id_permutation.specs.Placement.{IsFoundWithinHeight, place, unplace};

/// An order gives different places to different numbers below its size, and each place below its size to a number. The number at a
/// place is the one that has the place.
pub fn an_order_is_a_bijection()
    ensures bijection { (order : Arrangement) → IsBijectionBelow order.size (place_in order) }
    ensures inverse { (order : Arrangement) → AreInversesBelow order.size (place_in order) (number_at order) }
{}

/// A place is the first number of the walk that is below the size. It is found by at most as many evaluations of `mix` as the
/// rectangle has rows. The same is true from the number that an inverse gives to its place.
pub fn a_place_is_found_within_the_height()
    ensures of_a_number { (n seed x : ℕ) → 0 < n → x < n → IsFoundWithinHeight n seed x (place n seed x) }
    ensures of_an_inverse { (n seed y : ℕ) → 0 < n → y < n → IsFoundWithinHeight n seed (unplace n seed y) y }
{}

/// The least number passes the test, or is the bound if no number below the bound passes. No number before it passes.
pub fn the_least_number_passes_first()
    ensures within { (p : ℕ → Bool) (bound : ℕ) → least p bound ≤ bound }
    ensures passes { (p : ℕ → Bool) (bound : ℕ) → least p bound < bound → p (least p bound) ≡ true }
    ensures first { (p : ℕ → Bool) (bound k : ℕ) → k < least p bound → p k ≡ false }
{}
