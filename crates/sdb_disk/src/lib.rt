//! The disk that a store stands on: four files, what a crash may leave of them, a disk in memory for
//! which both are proved, and the real files.
#![tactic(auto)]

mod disk;
mod durable;
mod edits;
mod failure;
mod fault;
mod lost;
mod memory;
mod patient;
mod raw;
mod real;

pub use disk::Disk;
pub use durable::{write_durably, write_over};
pub use failure::{Failure, FailureCause};
pub use fault::{DiskFault, OpenFault, WorkFault};
pub use memory::MemoryDisk;
pub use real::FileDisk;

#[cfg(test)]
mod fake;
#[cfg(test)]
mod tests;
