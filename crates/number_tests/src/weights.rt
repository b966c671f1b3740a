//! Values from outside. Small values are worked out by hand. A Python program summed the totals of 4096 harmonic weights from the
//! rule that a weight is max(1, 10**9 // (i + 1)**power).

use std::process::Abort;
use weight_tables::{Weights, harmonic};

// Asserts that the number selects the group.
fn assert_group(rt: &impl Abort, weights: &Weights, x: u64, group: usize) {
    assert!(rt; x < weights.total(), "no group of {x}");
    assert!(rt; weights.select(x) == group, "the group of {x}");
}

// Asserts that each group takes its share of the numbers, from the end of the share before it.
fn assert_shares(rt: &impl Abort, weights: &Weights, shares: &[u64]) {
    let mut x = 0u64;
    for (group, share) in shares.iter().enumerate() {
        assert!(rt; *share > 0);
        assert_group(rt, weights, x, group);
        x = x.wrapping_add(*share);
        assert_group(rt, weights, x.wrapping_sub(1), group);
    }
    assert!(rt; weights.total() == x, "the total {x}");
}

fn crosses_threads<T: Send + Sync>(_value: &T) {}

#[test]
fn each_number_selects_its_group(rt: HostRuntime) {
    let list = [1, 2, 3];
    let weights = Weights::new(rt.alloc(), &list).expect(&rt, "memory");
    crosses_threads(&weights);
    assert!(rt; weights.total() == 6);
    for (x, group) in [(0, 0), (1, 1), (2, 1), (3, 2), (4, 2), (5, 2)] {
        assert_group(&rt, &weights, x, group);
    }
    let list = [5];
    let weights = Weights::new(rt.alloc(), &list).expect(&rt, "memory");
    assert_shares(&rt, &weights, &list);
    let list = [1, 1, 7, 1, 1 << 39];
    let weights = Weights::new(rt.alloc(), &list).expect(&rt, "memory");
    assert_shares(&rt, &weights, &list);
}

#[test]
fn harmonic_weights_are_as_worked_out(rt: HostRuntime) {
    let cases: [(u32, u32, &[u64]); 4] = [
        (
            4,
            1,
            &[1_000_000_000, 500_000_000, 333_333_333, 250_000_000],
        ),
        (3, 2, &[1_000_000_000, 250_000_000, 111_111_111]),
        (2, 3, &[1_000_000_000, 125_000_000]),
        (1, 2, &[1_000_000_000]),
    ];
    for (size, power, shares) in cases {
        assert!(rt; 1 <= size && size <= 4096 && 1 <= power && power <= 3);
        let weights = harmonic(rt.alloc(), size, power).expect(&rt, "memory");
        assert_shares(&rt, &weights, shares);
    }
}

// The total and the weight of the last of 4096 groups are from the Python program.
#[test]
fn many_harmonic_weights_are_as_summed(rt: HostRuntime) {
    let cases: [(u32, u64, u64); 3] = [
        (1, 8_895_101_925, 244_140),
        (2, 1_644_687_940, 59),
        (3, 1_202_059_030, 1),
    ];
    for (power, total, last) in cases {
        assert!(rt; 1 <= power && power <= 3);
        let weights = Weights::harmonic(rt.alloc(), 4096, power).expect(&rt, "memory");
        assert!(rt; weights.total() == total, "the total of power {power}");
        let first_of_last = total.wrapping_sub(last);
        assert_group(&rt, &weights, total.wrapping_sub(1), 4095);
        assert_group(&rt, &weights, first_of_last, 4095);
        assert_group(&rt, &weights, first_of_last.wrapping_sub(1), 4094);
    }
}
