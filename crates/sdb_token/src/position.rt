// A position in the order of names or of a sort attribute.
use sdb_base::Text;

/// A position among names or items: the next page begins with the first that stands after it.
#[derive(Debug, Drop, PartialEq, Eq)]
pub struct Position {
    /// Where the order is by an attribute, its value: at most 1,024 bytes.
    pub key: Option<Text>,
    /// The name of the last domain or item that was answered: 1 to 1,024 bytes.
    pub name: Text,
}
