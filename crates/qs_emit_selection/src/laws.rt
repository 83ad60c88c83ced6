// The laws of instruction selection. Each is the contract of an empty function.
ghost use Rattle.qs_emit_selection.specs.Labels.{UnitLabelsCountUp};
ghost use Rattle.qs_emit_selection.specs.Laws.{FunctionsKeepWords, UnitsKeepWords, WhatIsSelectedAreWords};
ghost use Rattle.qs_emit_selection.specs.Laws.{WordsAreKept};

/// Each instruction that is selected has a word: its registers and immediates are in their ranges.
pub fn what_is_selected_are_words()
    ensures { WhatIsSelectedAreWords }
{}

/// What an instruction of linear code becomes takes at most its words, and at least one; so does an
/// entry.
pub fn words_are_kept()
    ensures { WordsAreKept }
{}

/// The labels of a unit count up, and each jump and call leads to one of them: so its items have an
/// assembly where their words are few.
pub fn unit_labels_count_up()
    ensures { UnitLabelsCountUp }
{}

/// The items of a function take at most its words.
pub fn functions_keep_words()
    ensures { FunctionsKeepWords }
{}

/// The items of a unit take at most its words, and so does the code where they lie.
pub fn units_keep_words()
    ensures { UnitsKeepWords }
{}
