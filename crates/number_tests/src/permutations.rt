//! Values from outside. The sides of rectangles are worked out by hand. The other values come from an independent program
//! (docs/SECOND_PROGRAM.md). It is written in Python from the rules of the placement and of Philox4x32-10, with unbounded integers
//! and no shared code. Rounds and tables are held to the same values.

ghost use Rattle.std.specs.Prelude.{◌≡◌, ℕ, ◌<◌};

use crate::checksums::CHECKSUMS;
use id_permutation::{KeptOrders, Order, Shape};
use std::alloc::Global;
use std::marker::Brand;
use std::mem::size_of;
use std::process::Abort;
use std::sync::ledger::{Blank, Ledger};
use step_count::Steps;

const PROJECT_SEED: u64 = 0x0123_4567_89ab_cdef;

// The places of small permutations, in the order of their numbers.
const SMALL: [&[u64]; 4] = [&[0], &[1, 0], &[2, 0, 1], &[4, 3, 2, 5, 1, 6, 0]];

// Some numbers of a permutation of 2^40 and their places.
const BY_ROUNDS: [(u64, u64); 4] = [
    (0, 892_157_598_016),
    (1, 723_745_736_157),
    (123_456_789_012, 268_230_368_638),
    ((1 << 40) - 1, 998_511_941_863),
];

// Some numbers of a permutation of 2^32 and their places.
const BY_TABLES: [(u64, u64); 4] = [
    (0, 3_342_709_767),
    (1, 2_247_032_419),
    (1_234_567_890, 4_288_376_147),
    ((1 << 32) - 1, 3_934_091_137),
];

fn assert_place<L: Ledger>(
    rt: &impl Abort,
    order: &Order,
    x: u64,
    place: u64,
    steps: &mut Steps<L>,
) {
    assert!(rt; x < order.size() && place < order.size());
    let found = order.place(x, steps);
    let undone = order.unplace(place, steps);
    assert!(rt; found == place && undone == x, "the place of {x}");
}

fn assert_places<L: Ledger>(rt: &impl Abort, order: &Order, places: &[u64], steps: &mut Steps<L>) {
    assert!(rt; order.size() == places.len() as u64);
    let mut x = 0u64;
    for place in places {
        assert_place(rt, order, x, *place, steps);
        x = x.wrapping_add(1);
    }
}

fn assert_small<L: Ledger>(rt: &impl Abort, steps: &mut Steps<L>) {
    for places in SMALL {
        let size = places.len() as u64;
        assert!(rt; 1 <= size && size < 1000);
        assert_places(rt, &Order::by_rounds(size, 0), places, steps);
    }
}

fn assert_checksum<L: Ledger>(rt: &impl Abort, order: &Order, wanted: u64, steps: &mut Steps<L>) {
    let mut sum = 0u64;
    for x in 0..order.size() {
        sum = sum
            .wrapping_mul(1_000_003)
            .wrapping_add(order.place(x, steps));
    }
    let size = order.size();
    assert!(rt; sum == wanted, "the checksum of {size}");
}

// Keeps all orders of the checksums one after the other, so that neighbours of one size share their divisors. Orders of up to 35
// numbers, and of 37 and 38, go by rounds. The others go by tables.
fn assert_checksums<L: Ledger>(rt: &impl Abort, alloc: Global, steps: &mut Steps<L>) {
    let mut kept = KeptOrders::new(alloc);
    let mut size = 0u64;
    for (by_zero, by_project) in &CHECKSUMS {
        size = size.wrapping_add(1);
        assert!(rt; 1 <= size && size <= 200);
        for (seed, sum) in [(0, *by_zero), (PROJECT_SEED, *by_project)] {
            assert_checksum(rt, &Order::by_rounds(size, seed), sum, steps);
            kept.push(size, Some(seed), 1000).expect(rt, "memory");
        }
    }
    let mut k = 0usize;
    for (by_zero, by_project) in &CHECKSUMS {
        for sum in [*by_zero, *by_project] {
            assert!(rt; k < kept.len());
            assert_checksum(rt, &kept.get(k), sum, steps);
            k = k.wrapping_add(1);
        }
    }
}

fn assert_large<L: Ledger>(rt: &impl Abort, alloc: Global, steps: &mut Steps<L>) {
    let rounds = Order::by_rounds(1 << 40, 0);
    for (x, place) in BY_ROUNDS {
        assert_place(rt, &rounds, x, place, steps);
    }
    let mut kept = KeptOrders::new(alloc);
    kept.push(1 << 32, Some(0), 393_216).expect(rt, "memory");
    assert!(rt; kept.len() == 1 && kept.entries() == 393_216);
    for (x, place) in BY_TABLES {
        assert_place(rt, &kept.get(0), x, place, steps);
    }
}

fn assert_permutations<L: Ledger>(rt: &impl Abort, alloc: Global, blank: Blank)
    requires name { blank.name ≡ L.name }
    requires parts { blank.parts ≡ L.parts }
    requires some { 0 < blank.parts }
{
    let mut steps = Steps::<L>::new(blank);
    assert_small(rt, &mut steps);
    assert_checksums(rt, alloc, &mut steps);
    assert_large(rt, alloc, &mut steps);
}

#[test]
fn permutations_are_as_worked_out(rt: HostRuntime) {
    assert_permutations::<Brand>(&rt, rt.alloc(), Blank::new(1));
}

// The tables have three entries for each row and each column of the rectangle. The rectangles here have 1 and 1, 2 and 1, 2 and 2,
// 3 and 3, and 2^16 and 2^16 rows and columns.
#[test]
fn a_shape_has_three_entries_a_row_and_a_column(rt: HostRuntime) {
    for (size, entries) in [(1, 6), (2, 9), (3, 12), (7, 18), (1 << 32, 393_216)] {
        assert!(rt; 1 <= size);
        assert!(rt; Shape::new(size).entries() == entries, "tables of {size}");
    }
}

// 35 numbers have 6 rows of 6, and so 36 entries. 36 is the least size whose tables pay.
#[test]
fn tables_are_kept_where_they_pay_and_have_room(rt: HostRuntime) {
    let cases = [
        (35, u64::MAX, 0),
        (36, 35, 0),
        (36, 36, 36),
        ((1 << 32) + 1, u64::MAX, 0),
    ];
    for (size, room, entries) in cases {
        let mut kept = KeptOrders::new(rt.alloc());
        kept.push(size, Some(0), room).expect(&rt, "memory");
        assert!(rt;
            kept.entries() == entries,
            "{size} numbers in a room of {room}"
        );
    }
}

fn is_shared<T: Send + Sync>(_shared: &T) {}

#[test]
fn an_order_is_small_and_shared_by_threads(rt: HostRuntime) {
    is_shared(&Order::in_place(0));
    assert!(rt; size_of::<Order>() <= 72);
}
