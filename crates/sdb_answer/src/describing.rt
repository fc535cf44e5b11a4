// What DomainMetadata answers.
ghost use Rattle.std.specs.Prelude.{◌≡◌};
ghost use Rattle.sdb_answer.specs.Described.{described};
ghost use Rattle.sdb_pairs.specs.Accounts.{items_of};

use sdb_base::{AccountId, Text};
use sdb_domain::Accounts;
use sdb_reply::Outcome;
use sdb_tables::Refusal;

/// The numbers of a domain, with the moment at which they are taken.
pub(crate) fn describe<'a>(
    accounts: &Accounts,
    account: AccountId,
    domain: &Text,
    moment: u64,
) -> Outcome<'a>
    ensures { result ≡ described (items_of accounts.now account domain.now) moment }
{
    match accounts.domain(account, domain) {
        Some(domain) => Outcome::Metadata(domain.metadata(), moment),
        None => Outcome::Refused(Refusal::NoSuchDomain),
    }
}
