//! The event core: one call, one event. What came on connections is executed over the durable accounts, and answered
//! once what it rests on is durable.
#![tactic(auto)]

mod committing;
mod events;
mod executing;
mod laws;
mod the_core;

pub use laws::{
    all_arrivals_in_order, none_waits_while_there_is_room, plain_answers_are_durable,
    the_lesser_is_held,
};
pub use sdb_arrivals::{CoreFault, Event};
pub use the_core::Core;
