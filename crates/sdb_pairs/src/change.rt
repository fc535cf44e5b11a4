// Changes to accounts.
use crate::op::Ops;
use sdb_base::{AccountId, List, Text};

/// One change to the accounts. The first text is the domain's name; an edit has the item's name next, and at least one operation.
#[derive(Debug, Drop)]
pub enum Change {
    MakeDomain(AccountId, Text),
    DropDomain(AccountId, Text),
    Edit(AccountId, Text, Text, Ops),
}

/// Changes in the order in which they apply.
pub type Changes = List<Change>;
