// Laws of page tokens, each the contract of a function.
ghost use Rattle.sdb_token.specs.Laws.{OneDigestAndPosition, OnlyTokensAreRead, TokensAreRead};

/// A text is the token of one digest and one position at most.
pub fn one_digest_and_position()
    ensures { OneDigestAndPosition }
{}

/// The position that is computed of a text is the one whose token it is.
pub fn tokens_are_read()
    ensures all { TokensAreRead }
    ensures only { OnlyTokensAreRead }
{}
