// Writes single terminals, each with a blank behind it.
ghost use Rattle.std.specs.Prelude.{◌≡◌, ◌++◌, [], ◌∷◌, OnOk};
ghost use Rattle.qs_base.specs.Characters.{space};
ghost use Rattle.qs_print.specs.Printed.{comma_unless};
ghost use Rattle.qs_print.specs.Words.{Puts};
ghost use Rattle.qs_syntax_vocabulary.specs.declared.terminal.Terminal.TheVariants as terminals;

use qs_base::{Name, NoMemory};
use qs_syntax_vocabulary::{Keyword, Punctuator};

fn put_word(out: &mut Vec<u8>, spelling: &[u8]) -> Result<(), NoMemory>
    ensures { OnOk result (out.new.items ≡ out.old.items ++ (spelling.now ++ space ∷ [])) }
{
    out.extend_from_slice(spelling)?;
    out.push(b' ')?;
    Ok(())
}

/// Writes a keyword.
pub fn put_keyword(out: &mut Vec<u8>, keyword: Keyword) -> Result<(), NoMemory>
    ensures { OnOk result (Puts out.old (terminals.Keyword 0 keyword ∷ []) out.new) }
{
    put_word(out, keyword.spelling())
}

/// Writes a punctuator.
pub fn put_punctuator(out: &mut Vec<u8>, punctuator: Punctuator) -> Result<(), NoMemory>
    ensures { OnOk result (Puts out.old (terminals.Punctuator 0 punctuator ∷ []) out.new) }
{
    put_word(out, punctuator.spelling())
}

/// Writes a name.
pub fn put_name(out: &mut Vec<u8>, name: &Name) -> Result<(), NoMemory>
    ensures { OnOk result (Puts out.old (terminals.Name 0 name.now ∷ []) out.new) }
{
    put_word(out, name.bytes())
}

/// Writes the comma before what isn't the first.
pub fn put_comma_unless(out: &mut Vec<u8>, is_first: bool) -> Result<(), NoMemory>
    ensures { OnOk result (Puts out.old (comma_unless is_first) out.new) }
{
    if is_first {
        return Ok(());
    }
    put_punctuator(out, Punctuator::Comma)
}
