//! Tests of requests, from bytes to actions, by what the libraries show their callers.
#![tactic(auto)]

#[cfg(test)]
mod action;
#[cfg(test)]
mod base;
#[cfg(test)]
mod forms;
#[cfg(test)]
mod keys;
#[cfg(test)]
mod messages;
#[cfg(test)]
mod moments;
#[cfg(test)]
mod sign;
#[cfg(test)]
mod streams;
#[cfg(test)]
mod tables;
