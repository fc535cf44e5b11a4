// The number of an account.
ghost use Rattle.std.specs.Prelude.{◌≤◌};

use std::marker::Model;

/// The number of an account, from 1 to 16.
#[derive(Clone, Copy, Debug, PartialEq, Eq, PartialOrd, Ord, Hash)]
pub struct AccountId(pub u8);

impl Model for AccountId {
    ghost use Rattle.std.specs.Prelude.{ℕ, ◌≤◌};

    ghost Value = { ℕ };

    ghost view = { λ account. account.0 };

    ghost invariant = { λ account. (1 ≤ account.0) × (account.0 ≤ 16) };

    ghost inverse = { λ n. record { 0 = n } };
}
