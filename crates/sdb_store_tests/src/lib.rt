//! Tests of the store, from pairs to openings, by what the libraries show their callers.
#![tactic(auto)]

#[cfg(test)]
mod domain;
#[cfg(test)]
mod format;
#[cfg(test)]
mod journal;
#[cfg(test)]
mod pairs;
#[cfg(test)]
mod record;
#[cfg(test)]
mod store;
