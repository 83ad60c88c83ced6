// Writes types (C11 6.7.2, 6.7.6, 6.7.7).
ghost use Rattle.std.specs.Prelude.{OnOk};
ghost use Rattle.qs_print.specs.Printed.{printed_base, printed_stars, printed_type_name};
ghost use Rattle.qs_print.specs.Words.{Puts};

use crate::words::{put_keyword, put_name, put_punctuator};
use qs_base::NoMemory;
use qs_syntax::{Base, TypeName};
use qs_syntax_vocabulary::{Keyword, Punctuator};

/// Writes what a type begins with.
pub fn put_base(out: &mut Vec<u8>, base: &Base) -> Result<(), NoMemory>
    ensures { OnOk result (Puts out.old (printed_base base.now) out.new) }
{
    match base {
        Base::Void => put_keyword(out, Keyword::Void),
        Base::Int => put_keyword(out, Keyword::Int),
        Base::Unsigned => put_keyword(out, Keyword::Unsigned),
        Base::Char => put_keyword(out, Keyword::Char),
        Base::Struct(name) => {
            put_keyword(out, Keyword::Struct)?;
            put_name(out, name)
        }
        Base::Named(name) => put_name(out, name),
    }
}

/// Writes stars.
pub fn put_stars(out: &mut Vec<u8>, count: u32) -> Result<(), NoMemory>
    ensures { OnOk result (Puts out.old (printed_stars count) out.new) }
{
    for _star in 0..count {
        put_punctuator(out, Punctuator::Star)?;
    }
    Ok(())
}

/// Writes the name of a type.
pub fn put_type_name(out: &mut Vec<u8>, name: &TypeName) -> Result<(), NoMemory>
    ensures { OnOk result (Puts out.old (printed_type_name name.now) out.new) }
{
    put_base(out, &name.base)?;
    put_stars(out, name.stars)
}
