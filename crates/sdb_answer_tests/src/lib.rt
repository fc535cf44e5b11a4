//! Tests of answers, from writes to bodies, by what the libraries show their callers.
#![tactic(auto)]

#[cfg(test)]
mod answer;
#[cfg(test)]
mod cost;
#[cfg(test)]
mod listing;
#[cfg(test)]
mod reply;
#[cfg(test)]
mod token;
#[cfg(test)]
mod write;
