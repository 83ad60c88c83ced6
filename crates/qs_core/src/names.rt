// Numbers, and the names of variables and temporaries, as text.
ghost use Rattle.std.specs.Prelude.{decimal};
ghost use Rattle.std.specs.Fmt.{signed_decimal};
ghost use Rattle.qs_core.specs.TreeOf.{function_tree, variable_tree};
ghost use Rattle.qs_core.specs.Puts.{Puts};
ghost use Rattle.qs_core.specs.TermTexts as spec;

use crate::units::{CoreFunction, CoreVariable};
use itoa::Buffer;
use qs_base::NoMemory;

/// Writes these bytes.
pub fn put(out: &mut Vec<u8>, text: &[u8]) -> Result<(), NoMemory>
    ensures { Puts out.old text.now out.new result }
{
    out.extend_from_slice(text)?;
    Ok(())
}

/// Writes a number in decimal.
pub fn put_number(out: &mut Vec<u8>, n: u32) -> Result<(), NoMemory>
    ensures { Puts out.old (decimal n) out.new result }
{
    let mut digits = Buffer::new();
    put(out, digits.format(n).as_bytes())
}

/// Writes a count in decimal.
pub fn put_count(out: &mut Vec<u8>, n: usize) -> Result<(), NoMemory>
    ensures { Puts out.old (decimal n) out.new result }
{
    let mut digits = Buffer::new();
    put(out, digits.format(n).as_bytes())
}

/// Writes a whole number in decimal, with a `-` where it is below 0.
pub fn put_whole(out: &mut Vec<u8>, n: i64) -> Result<(), NoMemory>
    ensures { Puts out.old (signed_decimal n) out.new result }
{
    let mut digits = Buffer::new();
    put(out, digits.format(n).as_bytes())
}

fn put_ordinal(out: &mut Vec<u8>, k: u32) -> Result<(), NoMemory>
    ensures { Puts out.old (spec.ordinal_text k) out.new result }
{
    if k == 1 {
        return Ok(());
    }
    put(out, b"#")?;
    put_number(out, k)
}

fn put_variable_name(out: &mut Vec<u8>, v: &CoreVariable) -> Result<(), NoMemory>
    ensures { Puts out.old (spec.variable_name (variable_tree v.now)) out.new result }
{
    put(out, v.name.bytes())?;
    put_ordinal(out, v.ordinal)
}

/// Writes the name of the variable with this number.
pub fn put_variable(out: &mut Vec<u8>, f: &CoreFunction, x: u32) -> Result<(), NoMemory>
    ensures { Puts out.old (spec.variable_text (function_tree f.now) x) out.new result }
{
    match f.variables.get(x as usize) {
        None => Ok(()),
        Some(v) => put_variable_name(out, v),
    }
}

/// Writes the name of the temporary with this number.
pub fn put_temporary(out: &mut Vec<u8>, k: u32) -> Result<(), NoMemory>
    ensures { Puts out.old (spec.temporary_text k) out.new result }
{
    put(out, b"$")?;
    put_number(out, k)
}
