// All accounts, and changes applied whole or not at all.
ghost use Rattle.std.specs.Prelude.{◌≡◌, ◌-◌, ◌≤◌, ◌<◌, ◌+◌, OnOk, OnErr, option_map, length, List, [], ◌∷◌, ℕ, replicate};
ghost use Rattle.std.specs.Option.{option_copied};
ghost use Rattle.sdb_pairs.specs.Accounts.{AreAccounts, items_of};
ghost use Rattle.sdb_pairs.specs.Changes.{after_change, state};
ghost use Rattle.sdb_domain.specs.LookUps.{name_after};
ghost use Rattle.sdb_domain.specs.Weights.{domains_of, account_weight};

use crate::account::{Account, Undo, account_id};
use crate::domain::Domain;
use sdb_base::{AccountId, OutOfMemory, Text};
use sdb_pairs::{Change, Changes};
use std::alloc::Global;
use std::marker::Model;
use std::{array, fmt};

// How many accounts there are.
const ACCOUNTS: usize = 16;

/// The domains of all accounts, with their items. They come to be by changes alone. Looking up takes no
/// memory.
#[derive(Drop)]
pub struct Accounts {
    alloc: Global,
    accounts: [Account; ACCOUNTS],
}

impl Model for Accounts {
    ghost use Rattle.sdb_pairs.specs.Accounts.{DomainEntries};
    ghost use Rattle.sdb_domain.specs.Slots.{accounts_shown, AreKept};

    ghost Value = { DomainEntries };

    ghost view = { λ it. accounts_shown it.accounts };

    ghost invariant = { λ it. AreKept it.accounts };
}

// Items are seen by `item` and `scan` of a domain alone.
impl fmt::Debug for Accounts {
    fn fmt<W: fmt::Write>(&self, f: &mut fmt::Formatter<W>) -> fmt::Result {
        f.debug_struct("Accounts").finish_non_exhaustive()
    }
}

ghost use Rattle.sdb_domain.specs.declared.account.Undo.{Undo as Done};
ghost use Rattle.sdb_domain.specs.Slots.{accounts_shown, account_at, no_account};
ghost use Rattle.sdb_domain.specs.Steps.{Logs, AreSettledBut, CanUndoAll, CanUndoAccount, all_undone};
ghost use Rattle.sdb_domain.specs.Keyed.{unwound};

impl Accounts {
    /// No account has a domain. It takes no memory, and later calls use this allocator.
    pub fn new(alloc: Global) -> Accounts
        ensures { result ≡ [] }
    {
        Accounts {
            alloc,
            accounts: empty_accounts(alloc),
        }
    }

    /// The account's domain of that name.
    pub fn domain(&self, account: AccountId, name: &Text) -> Option<&Domain>
        ensures found { option_map (λ d. d.now) result ≡ items_of self.now account name.now }
        ensures accounts { AreAccounts self.now }
    {
        self.accounts[index_of(account)].domain(name)
    }

    /// The name of the account's domain of the least name above the given one, or of the least name of all.
    pub fn domain_after(&self, account: AccountId, name: Option<&Text>) -> Option<&Text>
        ensures { option_map (λ t. t.now) result ≡ name_after self.now account (option_copied name.entry) }
    {
        self.accounts[index_of(account)].domain_after(name)
    }

    /// How many domains the account has.
    pub fn domain_count(&self, account: AccountId) -> u64
        ensures { result ≡ length (domains_of self.now account) }
    {
        self.accounts[index_of(account)].count()
    }

    /// The weight of the account's domains, each of which weighs what its items weigh.
    pub fn weight(&self, account: AccountId) -> u64
        ensures { result ≡ account_weight self.now account }
    {
        self.accounts[index_of(account)].weight()
    }

    /// Applies all changes in order, or none. Making a domain that is there and dropping one that isn't
    /// change nothing; dropping one takes its items with it, and an edit makes its domain first. An item
    /// without pairs isn't there. No limit is checked.
    pub fn apply(&mut self, changes: &Changes) -> Result<(), OutOfMemory>
        ensures ok { OnOk result (self.new ≡ state self.old changes.now) }
        ensures err { OnErr result (self.new ≡ self.old) }
        ensures accounts { AreAccounts self.old }
    {
        let mut log = Vec::new(self.alloc);
        match step_all(&mut self.accounts, self.alloc, changes.as_slice(), &mut log) {
            Ok(()) => {
                settle_all(&mut self.accounts, log.as_slice());
                Ok(())
            }
            Err(error) => {
                undo_all(&mut self.accounts, log);
                Err(error)
            }
        }
    }
}

fn empty_accounts(alloc: Global) -> [Account; ACCOUNTS]
    ensures { result ≡ replicate 16 no_account }
{
    array::from_fn(|_| Account::new(alloc))
}

// The place of an account among all.
fn index_of(account: AccountId) -> usize
    ensures place { result + 1 ≡ account }
    ensures within { result < 16 }
{
    usize::from(account.0 - 1)
}

// Applies the changes in order, each with an entry of the log that takes it back.
fn step_all(
    accounts: &mut [Account],
    alloc: Global,
    changes: &[Change],
    log: &mut Vec<Undo>,
) -> Result<(), OutOfMemory>
    requires { length accounts.old ≡ 16 }
    ensures ok { OnOk result (accounts_shown accounts.new ≡ state (accounts_shown accounts.old) changes.now) }
    ensures logs { Logs accounts.old log.old.items accounts.new log.new.items }
{
    for change in changes {
        step(accounts, alloc, change, log)?;
    }
    Ok(())
}

fn step(
    accounts: &mut [Account],
    alloc: Global,
    change: &Change,
    log: &mut Vec<Undo>,
) -> Result<(), OutOfMemory>
    requires { length accounts.old ≡ 16 }
    ensures ok { OnOk result (accounts_shown accounts.new ≡ after_change (accounts_shown accounts.old) change.now) }
    ensures logs { Logs accounts.old log.old.items accounts.new log.new.items }
{
    let place = index_of(account_id(change));
    let Some(undo) = accounts[place].step(alloc, change)? else {
        return Ok(());
    };
    if let Err(full) = log.push(undo) {
        accounts[place].undo(full.value);
        return Err(OutOfMemory);
    }
    Ok(())
}

// Takes back every step of the log, the newest first.
fn undo_all(accounts: &mut [Account], mut log: Vec<Undo>)
    requires all { length accounts.old ≡ 16 }
    requires can { CanUndoAll accounts.old log.items }
    ensures { accounts.new ≡ unwound all_undone accounts.old log.items }
{
    while let Some(undo) = log.pop() {
        undo_one(accounts, undo);
    }
}

fn undo_one(accounts: &mut [Account], undo: Undo)
    requires all { length accounts.old ≡ 16 }
    requires can { CanUndoAccount (account_at accounts.old (undo.account - 1)) undo }
    ensures undone { accounts.new ≡ all_undone accounts.old undo }
    ensures size { length accounts.new ≡ 16 }
{
    let place = index_of(undo.account);
    accounts[place].undo(undo);
}

// Closes to edits every domain that a step of the log was about.
fn settle_all(accounts: &mut [Account], log: &[Undo])
    requires { length accounts.old ≡ 16 }
    ensures shown { accounts_shown accounts.new ≡ accounts_shown accounts.old }
    ensures settled { AreSettledBut accounts.old log.now → AreSettledBut accounts.new [] }
{
    for undo in log {
        settle_one(accounts, undo);
    }
}

fn settle_one(accounts: &mut [Account], undo: &Undo)
    requires { length accounts.old ≡ 16 }
    ensures shown { accounts_shown accounts.new ≡ accounts_shown accounts.old }
    ensures settled { (more : List Done) → AreSettledBut accounts.old (undo.now ∷ more) → AreSettledBut accounts.new more }
    ensures size { length accounts.new ≡ 16 }
{
    let place = index_of(undo.account);
    accounts[place].settle(undo);
}
