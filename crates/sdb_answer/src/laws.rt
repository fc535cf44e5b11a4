// What holds of every answer, each the contract of a function.
ghost use Rattle.std.specs.Prelude.{◌≡◌, ℕ, List, Option};
ghost use Rattle.std.specs.Option.{is_some};
ghost use Rattle.sdb_answer.specs.Selecting.{token_at};
ghost use Rattle.sdb_page.specs.Selects.{next_of};
ghost use Rattle.sdb_pairs.specs.Accounts.{ItemEntries};
ghost use Rattle.sdb_pairs.specs.Lawful.{AreLawfulItems};
ghost use Rattle.sdb_parse.specs.declared.select.Select.{Select};
ghost use Rattle.sdb_token.specs.declared.position.Position.{Position};
ghost use Rattle.sdb_answer.specs.Outcome.{ChangesLeadAfter};

/// The changes of a request lead from accounts in order to the accounts that it leaves: those of the write where
/// it is done, and else the accounts as they were.
pub fn changes_lead_after()
    ensures { ChangesLeadAfter }
{}

/// Over lawful items a Select has a token exactly where something is left behind its page.
pub fn tokens_stand_where_more_is_left()
    ensures { (digest : List ℕ) (s : Select) (items : ItemEntries) (after : Option Position) → AreLawfulItems items
        → is_some (token_at digest (next_of s items after)) ≡ is_some (next_of s items after) }
{}
