// Writes numbers and texts, each with a blank behind it.
ghost use Rattle.std.specs.Prelude.{◌≡◌, ◌++◌, [], ◌∷◌, OnOk, flat_map};
ghost use Rattle.qs_print.specs.Words.{Puts};
ghost use Rattle.qs_syntax_vocabulary.specs.declared.terminal.Terminal.TheVariants as terminals;
ghost use Rattle.qs_print.specs.Spelling.{octal};

use itoa::Buffer;
use qs_base::NoMemory;
use qs_syntax_vocabulary::Text;

/// Writes a constant in decimal, with `u` where it is unsigned.
pub fn put_constant(out: &mut Vec<u8>, value: u32, is_unsigned: bool) -> Result<(), NoMemory>
    ensures { OnOk result (Puts out.old (terminals.Constant 0 value is_unsigned ∷ []) out.new) }
{
    let mut digits = Buffer::new();
    out.extend_from_slice(digits.format(value).as_bytes())?;
    let end: &[u8] = if is_unsigned { b"u " } else { b" " };
    out.extend_from_slice(end)?;
    Ok(())
}

fn put_octal(out: &mut Vec<u8>, byte: u8) -> Result<(), NoMemory>
    ensures { OnOk result (out.new.items ≡ out.old.items ++ octal byte) }
{
    out.extend_from_slice(&[
        b'\\',
        b'0' + byte / 64,
        b'0' + byte / 8 % 8,
        b'0' + byte % 8,
    ])?;
    Ok(())
}

fn put_octals(out: &mut Vec<u8>, bytes: &[u8]) -> Result<(), NoMemory>
    ensures { OnOk result (out.new.items ≡ out.old.items ++ flat_map octal bytes.now) }
{
    for byte in bytes {
        put_octal(out, *byte)?;
    }
    Ok(())
}

/// Writes a text as one literal, each of its bytes in octal.
pub fn put_text(out: &mut Vec<u8>, text: &Text) -> Result<(), NoMemory>
    ensures { OnOk result (Puts out.old (terminals.Text 0 text.now ∷ []) out.new) }
{
    out.push(b'"')?;
    put_octals(out, text.bytes())?;
    out.extend_from_slice(b"\" ")?;
    Ok(())
}
