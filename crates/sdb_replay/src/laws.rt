// The laws of a run.
ghost use Rattle.sdb_replay.specs.Laws.{AllDecided, OneIsShown};

/// Of a run in which the disk didn't fail nothing is undecided: the store is sound, and each group of writes is durable or
/// held.
pub fn without_a_fault_all_is_decided()
    ensures { AllDecided }
{}

/// What runs show in which the disk didn't fail is a function of their keys, their script, the accounts and the number for
/// which the files stood, and how it went: which of the events were done, and the marks that are shown, of each answer
/// whether there was memory for it. Where these are the same the same bytes are shown, whatever the moments and the disk.
pub fn without_a_fault_one_text_is_shown()
    ensures { OneIsShown }
{}
