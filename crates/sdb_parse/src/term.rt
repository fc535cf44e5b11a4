// Terms: tokens with the texts that they stand for.
use crate::sign::Sign;
use sdb_base::Text;

// A token as the grammar sees it: its sign, and the text of a name, a quoted text or digits.
#[derive(Debug, Drop)]
pub struct Term {
    pub sign: Sign,
    pub text: Text,
}
