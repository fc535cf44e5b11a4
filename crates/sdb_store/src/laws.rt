// A law of what a store asks of accounts, the contract of a function.
ghost use Rattle.sdb_store.specs.Laws.{LawfulAccountsHaveSmallItems};

/// Lawful accounts have no item of more than 256 pairs, which is what `stage` asks of the accounts that changes lead to.
pub fn lawful_accounts_have_small_items()
    ensures { LawfulAccountsHaveSmallItems }
{}
