// Laws of requests, each the contract of a function.
ghost use Rattle.sdb_action.specs.Lawful.{AskedIsLawful};
ghost use Rattle.sdb_action.specs.Laws.{NamedDecide, OrderIsFree, UnnamedIsFree};

/// What parameters ask for is lawful: names, values, tokens and expressions within their limits and in UTF-8, 1 to
/// 256 pairs of a put, at most 256 parts or names, 1 to 25 items of which no two have one name.
pub fn asked_is_lawful()
    ensures { AskedIsLawful }
{}

/// Parameters ask for the same where they agree on what the action's rules name: its fields, and the parts of its
/// numbered lists.
pub fn named_parameters_decide()
    ensures { NamedDecide }
{}

/// The order of parameters doesn't matter.
pub fn order_is_free()
    ensures { OrderIsFree }
{}

/// A parameter that no rule of the action names doesn't matter.
pub fn unnamed_parameters_are_free()
    ensures { UnnamedIsFree }
{}
