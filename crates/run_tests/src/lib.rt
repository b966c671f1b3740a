//! Tests of whole runs, from words to files over devices in memory that fail: tables, refusals, workers, and files read in turn.
#![tactic(auto)]

#[cfg(test)]
mod citations;
#[cfg(test)]
mod devices;
#[cfg(test)]
mod inputs;
#[cfg(test)]
mod refused;
#[cfg(test)]
mod simulations;
#[cfg(test)]
mod sure;
#[cfg(test)]
mod texts;
#[cfg(test)]
mod workers;
