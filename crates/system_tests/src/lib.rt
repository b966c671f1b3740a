//! Tests of devices: real bytes through the adapters of the system's files, the progress that is told meanwhile, and the devices in memory.
#![tactic(auto)]

#[cfg(test)]
mod devices_in_memory;
#[cfg(test)]
mod faulty;
#[cfg(test)]
mod files;
#[cfg(test)]
mod names;
#[cfg(test)]
mod places;
#[cfg(test)]
mod progress;
