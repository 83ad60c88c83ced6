// Laws of texts: functions that do nothing, for what their clauses say.
ghost use Rattle.qs_sexpr.specs.Laws.{EachIsRead, FaultsLieInTexts, NeverBoth, OneFault};
ghost use Rattle.qs_sexpr.specs.Laws.{OneReading, PartsLieInTexts, ReadIsWritable, SpelledReads};
ghost use Rattle.qs_sexpr.specs.Laws.{WrittenReads};

/// A text has one reading or one first fault, and never both.
#[tactic(auto, using(crate::proofs::OneReading::one))]
pub fn one_reading()
    ensures one { EachIsRead }
    ensures one_list { OneReading }
    ensures one_fault { OneFault }
    ensures not_both { NeverBoth }
{}

/// Lists and atoms begin in their text, the bytes of each symbol stand at its place, and a fault
/// stands in the text or at its end.
pub fn each_place()
    ensures parts_lie { PartsLieInTexts }
    ensures fault_lies { FaultsLieInTexts }
{}

/// A text of lists and atoms, with white space between the parts of each list, reads as these.
#[tactic(auto, using(crate::proofs::SpellingLaws::spelled_reads))]
pub fn spelled_reads()
    ensures { SpelledReads }
{}

/// What is laid out for people reads as what was written.
#[tactic(auto, using(crate::proofs::LayoutLaws::laid_out_reads))]
pub fn written_reads()
    ensures { WrittenReads }
{}

/// What a text reads as can be written: its symbols are symbols, its numbers are in range, and its
/// lists nest at most 1,024 deep.
pub fn read_is_writable()
    ensures { ReadIsWritable }
{}
