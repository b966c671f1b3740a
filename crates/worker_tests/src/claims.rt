//! Numbers that two seats claim.

use range_workers::Claims;

// Three claims by two seats, whose numbers the caller has when they are back.
#[test]
fn two_seats_claim_three_numbers(rt: HostRuntime) {
    let (claims, mut own) = Claims::new(rt.alloc()).expect(&rt, "memory");
    let mut first = claims.split(&mut own);
    let mut second = claims.split(&mut own);
    assert_eq!(rt; claims.claim(&mut first), 0);
    assert_eq!(rt; claims.claim(&mut second), 1);
    assert_eq!(rt; claims.claim(&mut first), 2);
    claims.join(&mut own, second);
    claims.join(&mut own, first);
    assert_eq!(rt; claims.claimed(&mut own), 3);
}
