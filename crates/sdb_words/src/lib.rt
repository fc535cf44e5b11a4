//! The words of a command line, and the command that they name.
#![tactic(auto)]

mod asked;
mod command;
mod numbers;

pub use command::{Command, read_command};
