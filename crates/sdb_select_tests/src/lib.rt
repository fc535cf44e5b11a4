//! Tests of Select, from words to pages, by what the libraries show their callers.
#![tactic(auto)]

#[cfg(test)]
mod lex;
#[cfg(test)]
mod page;
#[cfg(test)]
mod parse;
#[cfg(test)]
mod pred;
#[cfg(test)]
mod printing;
#[cfg(test)]
mod values;
#[cfg(test)]
mod worked;
