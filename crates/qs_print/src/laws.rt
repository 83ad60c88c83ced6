// The law of printed terminals.
ghost use Rattle.std.specs.Prelude.{◌≡◌, List, true};
ghost use Rattle.std.specs.List.{list_all};
ghost use Rattle.qs_print.specs.Laws.{LexedBack};
ghost use Rattle.qs_syntax_vocabulary.specs.WellFormed.{is_well_formed};
ghost use Rattle.qs_syntax_vocabulary.specs.declared.terminal.Terminal.{Terminal};

/// Terminals that are spelled with single blanks between them, and a line feed behind the last, are
/// the tokens of that text.
pub fn lexed_back()
    ensures lexed_back { (ls : List Terminal) → list_all is_well_formed ls ≡ true → LexedBack ls }
{}
