// Laws of changes, each the contract of a function.
ghost use Rattle.sdb_pairs.specs.Laws.{ChangesKeepAccountsRising, DeletesAreEdits, DropChangesOneDomain, EditChangesOneItem, MakeChangesOneDomain, OwnChangesAreLawful, OwnChangesRebuild, PlacesSettle, PlacesTellAll, PutsAreEdits, StateOfJoined};

/// Accounts stay in rising order, item names and pairs too, whatever changes are applied.
pub fn changes_keep_accounts_rising()
    ensures { ChangesKeepAccountsRising }
{}

/// Applying joined lists of changes is applying one after the other.
pub fn state_of_joined()
    ensures { StateOfJoined }
{}

/// An edit makes its domain, leaves its item with the pairs after the operations, and leaves every other place as it was.
pub fn edit_changes_one_item()
    ensures { EditChangesOneItem }
{}

/// Making a domain leaves it there with the items that it had, and leaves every other domain as it was.
pub fn make_changes_one_domain()
    ensures { MakeChangesOneDomain }
{}

/// Dropping a domain leaves it absent, and leaves every other domain as it was.
pub fn drop_changes_one_domain()
    ensures { DropChangesOneDomain }
{}

/// Accounts are rebuilt from their own changes, which make each domain and then add each of its items by one edit, applied to
/// empty accounts. Where the accounts are lawful, so are these changes.
pub fn own_changes_rebuild()
    ensures rebuilt { OwnChangesRebuild }
    ensures lawful { OwnChangesAreLawful }
{}

/// Accounts that agree with a state at one place agree with it there after the same changes once more, and after any further changes.
pub fn places_settle()
    ensures { PlacesSettle }
{}

/// Accounts that agree at each place, which are domains and the pairs of items, are the same.
pub fn places_tell_all()
    ensures { PlacesTellAll }
{}

/// What a put leaves of an item's pairs is what an edit leaves that drops each replaced name and then adds each pair.
pub fn puts_are_edits()
    ensures { PutsAreEdits }
{}

/// What a delete leaves of an item's pairs is what an edit leaves that drops each part, or every pair where there is no part.
pub fn deletes_are_edits()
    ensures { DeletesAreEdits }
{}
