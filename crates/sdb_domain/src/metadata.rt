// The numbers of a domain that DomainMetadata answers.
/// Numbers that describe a domain (SimpleDB Developer Guide, DomainMetadata).
#[derive(Clone, Copy, Debug, PartialEq, Eq)]
pub struct Metadata {
    /// The number of items.
    pub items: u64,
    /// The bytes of the item names.
    pub item_bytes: u64,
    /// The number of distinct attribute names.
    pub names: u64,
    /// The bytes of the distinct attribute names.
    pub name_bytes: u64,
    /// The number of pairs of all items.
    pub pairs: u64,
    /// The bytes of their values.
    pub value_bytes: u64,
}
