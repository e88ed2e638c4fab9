//! The parts of a process, each by itself, and what is read and written where a dialogue doesn't tell it: hashes, stamps,
//! members, the code with its field and its kernels, pages and the spaces over them, free runs, an index, a log, links, and
//! the replica of a partition; lines that are no script lines, texts of long values, scripts that are made, frames, and the
//! ends of streams. They are tests of public calls alone, and stand apart from the crates that they are about since a crate
//! is proved once more with its tests.
#![tactic(auto)]

#[cfg(test)]
mod codes;
#[cfg(test)]
mod edges;
#[cfg(test)]
mod fields;
#[cfg(test)]
mod fixtures;
#[cfg(test)]
mod frames;
#[cfg(test)]
mod free_runs;
#[cfg(test)]
mod hashes;
#[cfg(test)]
mod indexes;
#[cfg(test)]
mod kernels;
#[cfg(test)]
mod lines;
#[cfg(test)]
mod links;
#[cfg(test)]
mod logs;
#[cfg(test)]
mod members;
#[cfg(test)]
mod pages;
#[cfg(test)]
mod readings;
#[cfg(test)]
mod replica;
#[cfg(test)]
mod scripts;
#[cfg(test)]
mod spaces;
#[cfg(test)]
mod squares;
#[cfg(test)]
mod stamps;
#[cfg(test)]
mod transcript;
