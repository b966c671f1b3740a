//! Numbers as people read them.

use std::alloc::AllocError;

/// The values of the first digits of groups of three, the greatest first.
const GROUPS: [u64; 7] = [
    1_000_000_000_000_000_000,
    1_000_000_000_000_000,
    1_000_000_000_000,
    1_000_000_000,
    1_000_000,
    1_000,
    1,
];

/// Appends a number, with a comma before each three digits: `65,536`.
pub(crate) fn put_grouped(number: u64, hints: &mut String) -> Result<(), AllocError> {
    let mut is_begun = false;
    for value in &GROUPS {
        let group = number.checked_div(*value).unwrap_or(0) % 1000;
        if is_begun {
            write!(hints, ",{group:03}")?;
        } else if group > 0 || *value == 1 {
            write!(hints, "{group}")?;
            is_begun = true;
        }
    }
    Ok(())
}
