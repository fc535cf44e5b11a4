// Laws of look-ups, each the contract of a function.
ghost use Rattle.sdb_domain.specs.Laws.{EntriesBehind, WalksGiveAll};

/// A scan from name to name meets the items in order, each once: all that are above the name that it begins at, and from no
/// name all. Behind the name of the first item above a name stand the others above that name.
pub fn walks_give_all()
    ensures all { WalksGiveAll }
    ensures behind { EntriesBehind }
{}
