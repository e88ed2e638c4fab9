//! Serving, as a client sees it: connections in memory and over a port of this machine, workers beside each other,
//! and settings. They are tests of public calls alone, over one table behind a lock in place of a group.
#![tactic(auto)]

#[cfg(test)]
mod bench;
#[cfg(test)]
mod crowd;
#[cfg(test)]
mod loopback;
#[cfg(test)]
mod memory;
#[cfg(test)]
mod places;
#[cfg(test)]
mod rows;
#[cfg(test)]
mod schedules;
#[cfg(test)]
mod settings;
#[cfg(test)]
mod shop;
#[cfg(test)]
mod throngs;
#[cfg(test)]
mod unsteady;
#[cfg(test)]
mod wires;
#[cfg(test)]
mod workers;
