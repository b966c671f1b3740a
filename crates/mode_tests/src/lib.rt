//! Tests of whole runs of the other modes that don't write tables: streams and undo texts applied, statements, samples and plays.
#![tactic(auto)]

#[cfg(test)]
mod applied;
#[cfg(test)]
mod plays;
#[cfg(test)]
mod revert;
#[cfg(test)]
mod sample;
#[cfg(test)]
mod statements;
#[cfg(test)]
mod undo;
