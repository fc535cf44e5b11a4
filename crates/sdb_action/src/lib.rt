//! Requests as values: what a client asks for, read from parameters.
#![tactic(auto)]

mod action;
mod attributes;
mod each;
mod entries;
mod expectation;
mod fields;
mod items;
mod laws;
mod numbers;
mod request;

pub use action::{Action, read_action};
pub use laws::{
    asked_is_lawful, named_parameters_decide, order_is_free, unnamed_parameters_are_free,
};
pub use request::{
    DropItem, DropItems, DropPart, DropParts, Expect, PutItem, PutItems, PutPair, PutPairs,
    Request, read_request,
};
