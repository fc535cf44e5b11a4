// Laws of writes, each the contract of a function.
ghost use Rattle.sdb_write.specs.Laws.{WritesAreChanges, WritesKeepAccountsRising};

/// Where a write gives accounts, a batch too, applying its changes gives those accounts.
pub fn writes_are_changes()
    ensures { WritesAreChanges }
{}

/// The accounts that a write gives stand in rising order, item names and pairs too.
pub fn writes_keep_accounts_rising()
    ensures { WritesKeepAccountsRising }
{}
