//! Keys, and how one is found by its id.

ghost use Rattle.std.specs.Prelude.{◌≡◌, ◌↔◌, ◌∷◌, ◌++◌, [], length, Contains, IsNone, OnOk, OnErr};
ghost use Rattle.std.specs.Option.{option_map};

use crate::prepared::PreparedKey;
use sdb_base::{AccountId, OutOfMemory, Text};
use std::alloc::Global;
use std::marker::Model;

/// An account's key. It has no `Debug`, so that no secret is printed by mistake.
#[derive(Drop)]
pub struct Key {
    pub account: AccountId,
    pub id: Text,
    pub secret: PreparedKey,
}

/// Keys with distinct ids, in the order of their file. It has no `Debug`, as `Key`.
#[derive(Drop)]
pub struct Keys {
    rows: Vec<Key>,
}

impl Model for Keys {
    ghost use Rattle.std.specs.Prelude.{List};
    ghost use Rattle.sdb_keys.specs.declared.keys.Key.{Key};

    ghost Value = { List Key };

    ghost view = { λ keys. keys.rows.items };
}

impl Keys {
    ghost use Rattle.sdb_keys.specs.Keys.{find_key, ids_of, is_known, account_and_secret};

    // No keys. It takes no memory.
    pub(crate) fn new(alloc: Global) -> Keys
        ensures { result ≡ [] }
    {
        Keys {
            rows: Vec::new(alloc),
        }
    }

    pub(crate) fn len(&self) -> usize
        ensures { result ≡ length self.now }
    {
        self.rows.len()
    }

    pub(crate) fn push(&mut self, key: Key) -> Result<(), OutOfMemory>
        ensures ok { OnOk result (self.new ≡ self.old ++ key ∷ []) }
        ensures err { OnErr result (self.new ≡ self.old) }
    {
        self.rows.push(key)?;
        Ok(())
    }

    fn key(&self, id: &Text) -> Option<&Key>
        ensures { option_map (λ key. key.now) result ≡ find_key self.now id.now }
    {
        self.rows.iter().find(|key| id.as_str() == key.id.as_str())
    }

    /// The account and the secret of a key id. It takes no memory.
    pub fn find(&self, id: &Text) -> Option<(AccountId, &[u8])>
        ensures found { option_map (λ found. (found.0, found.1.now)) result
            ≡ option_map account_and_secret (find_key self.now id.now) }
        ensures none { IsNone result ↔ (¬ (Contains (ids_of self.now) id.now)) }
    {
        let key = self.key(id)?;
        Some((key.account, key.secret.secret()))
    }

    /// The account and the prepared secret of a key id. It takes no memory.
    pub fn find_prepared(&self, id: &Text) -> Option<(AccountId, &PreparedKey)>
        ensures { option_map (λ found. (found.0, found.1.now)) result
            ≡ option_map account_and_secret (find_key self.now id.now) }
    {
        let key = self.key(id)?;
        Some((key.account, &key.secret))
    }

    pub(crate) fn has(&self, id: &Text) -> bool
        ensures { result ≡ is_known self.now id.now }
    {
        self.key(id).is_some()
    }
}
