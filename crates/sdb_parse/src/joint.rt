// Members of a condition, and what joins them.
ghost use Rattle.std.specs.Prelude.{◌≡◌};
ghost use Rattle.sdb_parse.specs.Conditions.{separator};

use crate::sign::Sign;

// What joins the members of a condition.
#[derive(Clone, Copy, Debug)]
pub enum Joint {
    Or,
    And,
    Inter,
}

impl Joint {
    pub(crate) fn separator(self) -> Sign
        ensures { result ≡ separator self }
    {
        match self {
            Joint::Or => Sign::Or,
            Joint::And => Sign::And,
            Joint::Inter => Sign::Intersection,
        }
    }
}
