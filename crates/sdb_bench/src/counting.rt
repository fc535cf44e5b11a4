// How many items and pairs accounts hold.
ghost use Rattle.std.specs.Prelude.{◌≡◌, ◌≤◌, ◌<◌, ◌^◌, length};
ghost use Rattle.sdb_bench.specs.Measures.{sum_in, sum_to};
ghost use Rattle.sdb_domain.specs.Weights.{domains_of, pair_count};

use sdb_base::AccountId;
use sdb_domain::Accounts;

// Numbers of items and pairs.
#[derive(Clone, Copy)]
pub(crate) struct Counts {
    pub items: u64,
    pub pairs: u64,
}

// Those of all accounts.
pub(crate) fn count_all(accounts: &Accounts) -> Counts
    ensures items { result.items ≡ sum_to length accounts.now 16 }
    ensures pairs { result.pairs ≡ sum_to pair_count accounts.now 16 }
{
    let mut all = Counts { items: 0, pairs: 0 };
    for before in 0..16 {
        let own = count_account(accounts, AccountId(before + 1));
        all.items += own.items;
        all.pairs += own.pairs;
    }
    all
}

// Those of one account. An item and a pair weigh 64 at least, so that neither number comes near the greatest weight.
fn count_account(accounts: &Accounts, account: AccountId) -> Counts
    ensures items { result.items ≡ sum_in length (domains_of accounts.now account) }
    ensures pairs { result.pairs ≡ sum_in pair_count (domains_of accounts.now account) }
    ensures few_items { result.items < 2 ^ 58 }
    ensures few_pairs { result.pairs < 2 ^ 58 }
{
    let _weight = accounts.weight(account);
    let mut counts = Counts { items: 0, pairs: 0 };
    let mut last = None;
    while let Some(name) = accounts.domain_after(account, last) {
        let Some(domain) = accounts.domain(account, name) else {
            unreachable!()
        };
        counts.items += domain.item_count();
        counts.pairs += domain.pair_count();
        last = Some(name);
    }
    counts
}
