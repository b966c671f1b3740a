//! Tests of hints: what is told of words, keys, rules and ranges, over files in memory. `.ci/hints` tries the program itself.
#![tactic(auto)]

#[cfg(test)]
mod told;
