//! Texts, bytes, lists, parameters and the step counter: what every other crate stands on.
#![tactic(auto)]

mod account;
mod boxed;
mod bytes;
mod decimal;
mod list;
mod memory;
mod out;
mod params;
mod steps;
mod text;
mod verb;

pub use account::AccountId;
pub use boxed::Boxed;
pub use bytes::Bytes;
pub use decimal::read_decimal;
pub use list::{List, Numbers, Texts, Words};
pub use memory::OutOfMemory;
pub use out::Out;
pub use params::Params;
pub use steps::Steps;
pub use text::Text;
pub use verb::Verb;
