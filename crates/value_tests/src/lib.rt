//! Tests of `draw_values`: what fields hold that need no other row.
#![tactic(auto)]

#[cfg(test)]
mod values;
