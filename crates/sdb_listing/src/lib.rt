//! What a store holds, as text: a line for its sequence number, and one for each domain.
#![tactic(auto)]

ghost use Rattle.std.specs.Prelude.{◌≡◌, ◌++◌, IfOk, OnOk, decimal};
ghost use Rattle.sdb_listing.specs.Listing.{account_lines, domain_line, listing_of};

use itoa::Buffer;
use sdb_base::{AccountId, Bytes, OutOfMemory, Text};
use sdb_domain::{Accounts, Domain};
use std::alloc::Global;

/// The line `sequence N`, and then, by account and by domain's name in rising order, a line of account,
/// domain, number of items and number of pairs, split by one space. Each line ends with LF.
#[tactic(auto, using(std::proofs::Common::append_assoc))]
pub fn listing(alloc: Global, accounts: &Accounts, sequence: u64) -> Result<Bytes, OutOfMemory>
    ensures { IfOk result (λ text. text.bytes ≡ listing_of sequence accounts.now) }
{
    let mut text = Bytes::from_slice(alloc, b"sequence ")?;
    append_decimal(&mut text, sequence)?;
    text.append(b"\n")?;
    for before in 0..16 {
        append_account(&mut text, accounts, AccountId(before + 1))?;
    }
    Ok(text)
}

// The lines of an account's domains.
fn append_account(
    text: &mut Bytes,
    accounts: &Accounts,
    account: AccountId,
) -> Result<(), OutOfMemory>
    ensures { OnOk result (text.new.bytes ≡ text.old.bytes ++ account_lines accounts.now account) }
{
    let mut last = None;
    while let Some(name) = accounts.domain_after(account, last) {
        let Some(domain) = accounts.domain(account, name) else {
            unreachable!()
        };
        append_domain(text, account, name, domain)?;
        last = Some(name);
    }
    Ok(())
}

// The line of a domain.
#[tactic(auto, using(std::proofs::Common::append_assoc))]
fn append_domain(
    text: &mut Bytes,
    account: AccountId,
    name: &Text,
    domain: &Domain,
) -> Result<(), OutOfMemory>
    ensures { OnOk result (text.new.bytes ≡ text.old.bytes ++ domain_line account name.now domain.now) }
{
    append_decimal(text, u64::from(account.0))?;
    text.append(b" ")?;
    text.append(name.as_str().as_bytes())?;
    text.append(b" ")?;
    append_decimal(text, domain.item_count())?;
    text.append(b" ")?;
    append_decimal(text, domain.pair_count())?;
    text.append(b"\n")
}

fn append_decimal(text: &mut Bytes, number: u64) -> Result<(), OutOfMemory>
    ensures { OnOk result (text.new.bytes ≡ text.old.bytes ++ decimal number) }
{
    let mut digits = Buffer::new();
    text.append(digits.format(number).as_bytes())
}
