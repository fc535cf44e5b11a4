//! Connections and arrivals of the event core: the table of connections, what is read of a request, and the
//! line of those that wait.
#![tactic(auto)]

mod asked;
mod entry;
mod event;
mod laws;
mod line;
mod opening;
mod read;
mod release;
mod room;
mod table;

pub use asked::Asked;
pub use event::{CoreFault, Event};
pub use laws::{
    arrivals_are_numbered, connections_follow_the_story, few_arrivals,
    full_exactly_where_64_are_live, one_read,
};
pub use line::{Held, Line, Queued};
pub use read::Read;
pub use room::Room;
pub use table::Table;
