// Writes whole units (C11 6.9).
ghost use Rattle.std.specs.Prelude.{◌≡◌, IfOk, OnOk, map};
ghost use Rattle.qs_print.specs.Printed.{printed_body, printed_braces, printed_decl};
ghost use Rattle.qs_print.specs.Printed.{printed_defined, printed_forward, printed_function};
ghost use Rattle.qs_print.specs.Printed.{printed_struct, printed_typedef, printed_unit};
ghost use Rattle.qs_print.specs.ReadsBack.{ReadsBack};
ghost use Rattle.qs_print.specs.Words.{Puts};
ghost use Rattle.qs_print.specs.Spelling.{joined};
ghost use Rattle.qs_syntax.specs.TreeOf.{decl_tree, forward_tree, function_tree, struct_tree};
ghost use Rattle.qs_syntax.specs.TreeOf.{body_tree, defined_tree, typedef_tree};
ghost use Rattle.qs_syntax.specs.UnitTrees.{unit_tree};
ghost use Rattle.qs_print.specs.Rows.{member_row};

use crate::declarations::{
    put_declaration, put_declarators, put_members, put_optional_name, put_parameters,
};
use crate::statements::put_block;
use crate::types::{put_base, put_stars};
use crate::words::{put_keyword, put_name, put_punctuator};
use qs_base::NoMemory;
use qs_syntax::{Decl, Defined, Forward, Function, Members, Stmt, Struct, Typedef, Unit};
use qs_syntax_vocabulary::{Keyword, Punctuator};
use std::alloc::Global;

fn put_all_members(out: &mut Vec<u8>, members: &[Members]) -> Result<(), NoMemory>
    ensures { OnOk result (Puts out.old (member_row members.now) out.new) }
{
    for m in members {
        put_members(out, m)?;
    }
    Ok(())
}

/// Writes a struct up to the brace behind its members.
fn put_braces(out: &mut Vec<u8>, s: &Struct) -> Result<(), NoMemory>
    ensures { OnOk result (Puts out.old (printed_braces (struct_tree s.now)) out.new) }
{
    put_keyword(out, Keyword::Struct)?;
    put_optional_name(out, &s.name)?;
    put_punctuator(out, Punctuator::OpenBrace)?;
    put_all_members(out, &s.members)?;
    put_punctuator(out, Punctuator::CloseBrace)
}

fn put_struct(out: &mut Vec<u8>, s: &Struct) -> Result<(), NoMemory>
    ensures { OnOk result (Puts out.old (printed_struct (struct_tree s.now)) out.new) }
{
    put_braces(out, s)?;
    put_punctuator(out, Punctuator::Semicolon)
}

fn put_forward(out: &mut Vec<u8>, f: &Forward) -> Result<(), NoMemory>
    ensures { OnOk result (Puts out.old (printed_forward (forward_tree f.now)) out.new) }
{
    put_keyword(out, Keyword::Struct)?;
    put_name(out, &f.name)?;
    put_punctuator(out, Punctuator::Semicolon)
}

fn put_body(out: &mut Vec<u8>, body: &Option<Vec<Stmt>>) -> Result<(), NoMemory>
    ensures { OnOk result (Puts out.old (printed_body (body_tree body.now)) out.new) }
{
    match body {
        None => put_punctuator(out, Punctuator::Semicolon),
        Some(items) => put_block(out, items),
    }
}

fn put_function(out: &mut Vec<u8>, f: &Function) -> Result<(), NoMemory>
    ensures { OnOk result (Puts out.old (printed_function (function_tree f.now)) out.new) }
{
    put_base(out, &f.result_type.base)?;
    put_stars(out, f.result_type.stars)?;
    put_name(out, &f.name)?;
    put_punctuator(out, Punctuator::OpenParenthesis)?;
    put_parameters(out, &f.parameters)?;
    put_punctuator(out, Punctuator::CloseParenthesis)?;
    put_body(out, &f.body)
}

fn put_defined(out: &mut Vec<u8>, defined: &Defined) -> Result<(), NoMemory>
    ensures { OnOk result (Puts out.old (printed_defined (defined_tree defined.now)) out.new) }
{
    match defined {
        Defined::Struct(s) => put_braces(out, s),
        Defined::Base(base) => put_base(out, base),
    }
}

fn put_typedef(out: &mut Vec<u8>, t: &Typedef) -> Result<(), NoMemory>
    ensures { OnOk result (Puts out.old (printed_typedef (typedef_tree t.now)) out.new) }
{
    put_keyword(out, Keyword::Typedef)?;
    put_defined(out, &t.defined)?;
    put_declarators(out, &t.names)?;
    put_punctuator(out, Punctuator::Semicolon)
}

fn put_decl(out: &mut Vec<u8>, d: &Decl) -> Result<(), NoMemory>
    ensures { OnOk result (Puts out.old (printed_decl (decl_tree d.now)) out.new) }
{
    match d {
        Decl::Struct(s) => put_struct(out, s),
        Decl::Forward(f) => put_forward(out, f),
        Decl::Function(f) => put_function(out, f),
        Decl::Variable(d) => put_declaration(out, d),
        Decl::Typedef(t) => put_typedef(out, t),
    }
}

fn put_unit(out: &mut Vec<u8>, declarations: &[Decl]) -> Result<(), NoMemory>
    ensures { OnOk result (Puts out.old (printed_unit (map decl_tree declarations.now)) out.new) }
{
    for d in declarations {
        put_decl(out, d)?;
    }
    Ok(())
}

/// The text of a unit: its tokens with single blanks between, parentheses only where the grammar
/// needs them, ended by 0x0A. An error says that memory was wanting.
pub fn print(alloc: Global, unit: &Unit) -> Result<Vec<u8>, NoMemory>
    ensures reads_back { IfOk result (λ text. ∥ ReadsBack text.items (unit_tree unit.now) ∥₁) }
    ensures text { IfOk result (λ text. text.items ≡ joined (printed_unit (unit_tree unit.now))) }
{
    let mut out = Vec::new(alloc);
    put_unit(&mut out, unit.declarations())?;
    let _blank = out.pop();
    out.push(b'\n')?;
    Ok(out)
}
