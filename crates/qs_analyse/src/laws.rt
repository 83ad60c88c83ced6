// Laws of what is added: functions that do nothing, for what their clauses say.
ghost use Rattle.qs_analyse.specs.Laws.{CallsMeetSpecs, FilledEntriesAreValid, FilledProofsCover};
ghost use Rattle.qs_analyse.specs.Laws.{OneFilling, OpenNamesAreLongestPaths};

/// Each entry that is added is valid: its precondition pays for each call, whatever the costs.
pub fn filled_entries_are_valid()
    ensures { FilledEntriesAreValid }
{}

/// Where the entries that are given are derived in what they are filled to, the whole covers the
/// unit.
pub fn filled_proofs_cover()
    ensures { FilledProofsCover }
{}

/// For all costs, the cost of an open function and the value of its precondition are the longest
/// path of calls from it.
pub fn open_names_are_longest_paths()
    ensures { OpenNamesAreLongestPaths }
{}

/// What is given is filled in one way: what is added stands in the order of a depth first search.
pub fn one_filling()
    ensures { OneFilling }
{}

/// In what is filled each call meets a specification, so that a derivation never lacks one.
pub fn calls_meet_specs()
    ensures { CallsMeetSpecs }
{}
