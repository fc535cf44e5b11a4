// Laws of what the files of a store stand for, each the contract of a function.
ghost use Rattle.sdb_record.specs.StandsLaws.{EmptyFilesStand, FineFilesStand, GroundStays, GroupsLeadThere, NoneIsBad, OneIsFirstBad, StandForOne};

/// What a journal stands on stays, whatever is written to the journal itself.
pub fn ground_stays()
    ensures { GroundStays }
{}

/// Files stand for one accounts and one number.
pub fn stand_for_one()
    ensures { StandForOne }
{}

/// Any groups that a journal has on its base lead to what the files stand for.
pub fn groups_lead_there()
    ensures { GroupsLeadThere }
{}

/// Files that stand for accounts have no bad file among them.
pub fn none_is_bad()
    ensures { NoneIsBad }
{}

/// Of the files that are bad one is named.
pub fn one_is_first_bad()
    ensures { OneIsFirstBad }
{}

/// Files that break no rule stand for accounts, unless these have an item of more than 256 pairs.
pub fn fine_files_stand()
    ensures { FineFilesStand }
{}

/// Four empty files stand for no domain, and for the number 0.
pub fn empty_files_stand()
    ensures { EmptyFilesStand }
{}
