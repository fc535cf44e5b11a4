//! Messages out of the bytes of a connection, in whatever pieces they come, and the bytes of responses.
#![tactic(auto)]

mod fault;
mod feed;
mod fields;
mod head;
mod laws;
mod layout;
mod look;
mod message;
mod reading;
mod responses;
mod verdict;
mod words;

pub use fault::HttpFault;
pub use feed::Feed;
pub use laws::{
    no_bytes_no_reply, no_proper_prefix, one_reading, replies_take_bytes,
    skipped_bytes_are_not_seen,
};
pub use message::Message;
pub use reading::count_replies;
pub use responses::response;
