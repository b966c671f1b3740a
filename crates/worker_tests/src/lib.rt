//! Tests of pages, of pages in order and of claims, by public calls.
#![tactic(auto)]

#[cfg(test)]
mod claims;
#[cfg(test)]
mod offers;
#[cfg(test)]
mod pages;
