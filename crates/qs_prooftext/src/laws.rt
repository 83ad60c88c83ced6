// Laws of proof files: functions that do nothing, for what their clauses say.
ghost use Rattle.std.specs.Prelude.{ℕ, List};
ghost use Rattle.qs_core.specs.Trees.{CoreUnitTree};
ghost use Rattle.qs_prooftext_meaning.specs.Laws.{HasMeaning, AtMostOne, NotBoth, LaidReads, SpelledReads};
ghost use Rattle.qs_prooftext_meaning.specs.Laws.{ReadIsWritable};
ghost use Rattle.qs_prooftext_meaning.specs.Reading.{Fault, Reading};
ghost use Rattle.qs_triples.specs.Derivations.{ProofsTree};

/// In a unit a text has one reading or one first fault, and never both.
pub fn one_meaning()
    ensures one { (u : CoreUnitTree) (text : List ℕ) → HasMeaning u text }
    ensures one_proofs { (u : CoreUnitTree) (text : List ℕ) → AtMostOne (Reading u text) }
    ensures one_fault { (u : CoreUnitTree) (text : List ℕ) → AtMostOne (Fault u text) }
    ensures not_both { (u : CoreUnitTree) (text : List ℕ) → NotBoth u text }
{}

/// A text of what is written of proofs reads back to the same proofs.
#[tactic(auto, using(qs_prooftext_meaning::proofs::Readings::reads_back))]
pub fn written_reads()
    ensures written { (u : CoreUnitTree) (proofs : ProofsTree) → LaidReads u proofs }
    ensures spelled { (u : CoreUnitTree) (text : List ℕ) → SpelledReads u text }
{}

/// What a text reads as can be written: its lists have a meaning, no definition and no function
/// stands twice, no definition has the name of an open function, names are symbols, numbers are in
/// range and lists nest at most 1,024 deep.
pub fn read_is_writable()
    ensures { (u : CoreUnitTree) (text : List ℕ) → ReadIsWritable u text }
{}
