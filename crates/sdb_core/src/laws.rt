//! The laws of ledgers and stories.

ghost use Rattle.sdb_core.specs.Laws.{AllInOrder, AreFew, LesserIsHeld, NoneWaits, OpenAsTold, PlainIsDurable};

/// What is released, what is held and what waits, one after the other, is all that arrived, in its order: so no
/// arrival is lost, and none is answered twice or out of turn.
pub fn all_arrivals_in_order()
    ensures { AllInOrder }
{}

/// Where requests are executed, the lesser of 64 and of all that are in hand are held after it.
pub fn the_lesser_is_held()
    ensures { LesserIsHeld }
{}

/// After every story at most 64 answers are held; while the store is sound and fewer are, no request waits.
pub fn none_waits_while_there_is_room()
    ensures few { AreFew }
    ensures none { NoneWaits }
{}

/// A plain answer is released only by a commit. Either that commit has committed, and the changes of all that were held
/// are durable after it, or none of them changed anything.
pub fn plain_answers_are_durable()
    ensures { PlainIsDurable }
{}

/// `is_open` says what the story says: a core that stands for a story has a connection open exactly where it was opened
/// in the story and no event ended it.
pub fn open_as_the_story_tells()
    ensures { OpenAsTold }
{}
