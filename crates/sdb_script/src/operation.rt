// What the requests of a workload ask for.

// An item of a domain, both by number.
#[derive(Clone, Copy, Debug, PartialEq, Eq)]
pub(crate) struct Place {
    pub domain: u64,
    pub item: u64,
}

// An attribute and a value, both by number.
#[derive(Clone, Copy, Debug, PartialEq, Eq)]
pub(crate) struct Entry {
    pub attribute: u64,
    pub value: u64,
}

// What a request asks for.
#[derive(Clone, Copy, Debug, PartialEq, Eq)]
pub(crate) enum Operation {
    // A domain is made.
    Create(u64),
    // A pair is put, in place of the attribute's values or beside them.
    Put(Place, Entry, bool),
    // An item is deleted.
    Delete(Place),
    // An item is asked for.
    Get(Place),
    // The items of a domain that have such a value or a greater one are asked for.
    Select(u64, Entry),
}

// A turn: a connection from 1 to 4, and what is asked for on it.
#[derive(Clone, Copy, Debug, PartialEq, Eq)]
pub(crate) struct Turn {
    pub conn: u32,
    pub operation: Operation,
}
