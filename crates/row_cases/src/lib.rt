//! What several crates of tests of rows share: plans of schemas, and checksums.
#![tactic(auto)]

use dictionaries::read_dictionary;
use schema_check::check;
use schema_facts::Dictionaries;
use schema_plan::Plan;
use schema_read::read_schema;
use std::alloc::Global;

/// Returns the plan of the schema whose text is the parts, one after the other. The schema can cite the dictionary `n`, of three words.
/// Returns None if the text isn't accepted, or if memory runs out.
pub fn plan_of(alloc: Global, parts: &[&str]) -> Option<Plan> {
    let text = parts.concat(alloc).ok()?;
    let schema = read_schema(alloc, text.as_str().as_bytes()).ok()?;
    let words = three_words(alloc)?;
    check(alloc, schema, words).ok()
}

fn three_words(alloc: Global) -> Option<Dictionaries> {
    let words = read_dictionary(alloc, b"Ann\t3\nBo\nA|b\t2\n").ok()?;
    let mut all = Dictionaries::new(alloc);
    all.push("n", words).ok()?;
    Some(all)
}

/// Returns a checksum with a further number.
pub fn with_number(sum: u64, number: u64) -> u64 {
    sum.wrapping_mul(1_000_003).wrapping_add(number)
}

/// Returns a checksum with a further text.
pub fn with_text(sum: u64, text: &[u8]) -> u64 {
    let mut sum = sum;
    for byte in text {
        sum = with_number(sum, u64::from(*byte));
    }
    sum
}
