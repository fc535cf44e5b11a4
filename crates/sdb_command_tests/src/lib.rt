//! Tests of connections, the core, scripts and the commands, by what the libraries show their callers.
#![tactic(auto)]

#[cfg(test)]
mod arrivals;
#[cfg(test)]
mod bare;
#[cfg(test)]
mod batches;
#[cfg(test)]
mod checking;
#[cfg(test)]
mod replay;
#[cfg(test)]
mod respond;
#[cfg(test)]
mod script;
#[cfg(test)]
mod selects;
#[cfg(test)]
mod serve;
#[cfg(test)]
mod stepping;
#[cfg(test)]
mod words;
