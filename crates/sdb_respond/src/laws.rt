//! What holds of every arrival, each the contract of a function.

ghost use Rattle.sdb_respond.specs.Order.{FirstRefusalAnswers};
ghost use Rattle.sdb_respond.specs.Staged.{ReadsAreLawful};

/// Of the steps by which an arrival is judged, in their one order, the first that refuses answers, and changes
/// nothing; there is one such refusal, or none. Where there is none, the request is executed for the account that
/// signed it, and what it comes to is no refusal.
pub fn first_refusal_answers()
    ensures { FirstRefusalAnswers }
{}

/// The changes of an arrival are what a store can stage: they are lawful, their spelling has at most 33,554,432
/// bytes, and over accounts without an item of more than 256 pairs they leave none.
pub fn reads_are_lawful()
    ensures { ReadsAreLawful }
{}
