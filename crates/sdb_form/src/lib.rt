//! Forms (`application/x-www-form-urlencoded`) as parameters.
#![tactic(auto)]

mod fault;
mod laws;
mod names;
mod pairs;
mod reading;
mod text;

pub use fault::FormFault;
pub use laws::{one_answer, one_reading, one_text};
pub use reading::read;
