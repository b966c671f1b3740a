//! Quotients and remainders worked out by hand.

use fixed_divisors::{Division, FixedDivisor};

#[test]
fn divides_at_the_edges(rt: HostRuntime) {
    let largest = u64::MAX;
    let cases = [
        (1, 0, 0, 0),
        (1, 1, 1, 0),
        (1, largest, largest, 0),
        (2, 1, 0, 1),
        (2, 2, 1, 0),
        (2, largest, (1 << 63) - 1, 1),
        (3, 2, 0, 2),
        (3, 3, 1, 0),
        (3, largest - 1, 0x5555_5555_5555_5554, 2),
        (3, largest, 0x5555_5555_5555_5555, 0),
        (1 << 32, (1 << 32) - 1, 0, (1 << 32) - 1),
        (1 << 32, 1 << 32, 1, 0),
        (1 << 32, largest, (1 << 32) - 1, (1 << 32) - 1),
        (1 << 63, (1 << 63) - 1, 0, (1 << 63) - 1),
        (1 << 63, 1 << 63, 1, 0),
        (1 << 63, largest, 1, (1 << 63) - 1),
        (largest, 0, 0, 0),
        (largest, largest - 1, 0, largest - 1),
        (largest, largest, 1, 0),
    ];
    for (number, x, quotient, remainder) in cases {
        assert!(rt; number > 0);
        let divisor = FixedDivisor::new(number);
        let division = Division {
            quotient,
            remainder,
        };
        assert!(rt;
            divisor.number() == number
                && divisor.divide(x) == division
                && divisor.quotient(x) == quotient
                && divisor.remainder(x) == remainder,
            "{x} by {number}"
        );
    }
}

#[test]
fn makes_each_number_its_remainder(rt: HostRuntime) {
    let mut numbers = [0, 1, 9, 10, 11, 99, u64::MAX];
    FixedDivisor::new(10).remainders(&mut numbers);
    assert_eq!(rt; numbers, [0, 1, 9, 0, 1, 9, 5]);
}
