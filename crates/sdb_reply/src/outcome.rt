// What a request came to, and the status of its response.
ghost use Rattle.std.specs.Prelude.{◌≡◌};
ghost use Rattle.sdb_reply.specs.Bodies.{status_of};
ghost use Rattle.sdb_tables.specs.Faults.{IsAnswerStatus};

use sdb_action::Action;
use sdb_base::{Text, Texts};
use sdb_domain::Metadata;
use sdb_pairs::{ItemsOut, Pairs};
use sdb_tables::{Refusal, fault_row};

/// What identifies a request: its connection, and its number among that connection's requests, from 1 and
/// below 2^48.
#[derive(Clone, Copy, Debug, PartialEq, Eq)]
pub struct RequestId {
    pub conn: u32,
    pub number: u64,
}

/// What a request comes to. A token stands exactly where more is left than is answered.
#[derive(Debug, Drop)]
pub enum Outcome<'a> {
    /// A write was done.
    Done(Action),
    /// The names of domains.
    Domains(Texts, Option<Text>),
    /// The numbers of a domain, and the moment at which they were taken, in seconds since 1970.
    Metadata(Metadata, u64),
    /// The pairs of an item.
    Pairs(Pairs<'a>),
    /// A page of items.
    Items(ItemsOut<'a>, Option<Text>),
    /// How many items a page counts.
    Count(u64, Option<Text>),
    /// The request is refused, and has changed nothing.
    Refused(Refusal),
}

impl<'a> Outcome<'a> {
    /// The status of the response: 200, or that of the refusal's row.
    pub fn status(&self) -> u16
        ensures value { result ≡ status_of self.now }
        ensures known { IsAnswerStatus result }
    {
        match self {
            Outcome::Refused(refusal) => fault_row(refusal).status,
            _ => 200,
        }
    }
}
