// Writes declarations (C11 6.7).
ghost use Rattle.std.specs.Prelude.{◌≡◌, OnOk};
ghost use Rattle.qs_print.specs.Printed.{const_if, is_void_alone, open_brackets};
ghost use Rattle.qs_print.specs.Printed.{printed_declaration, printed_declarator};
ghost use Rattle.qs_print.specs.Printed.{printed_initialiser, printed_length, printed_lengths};
ghost use Rattle.qs_print.specs.Printed.{printed_members, printed_name, printed_parameter};
ghost use Rattle.qs_print.specs.Printed.{printed_setting, printed_variable};
ghost use Rattle.qs_print.specs.Words.{Puts};
ghost use Rattle.qs_syntax.specs.TreeOf.{declaration_tree, declarator_tree, expr_tree};
ghost use Rattle.qs_syntax.specs.TreeOf.{initialiser_tree, lengths_tree, members_tree};
ghost use Rattle.qs_syntax.specs.TreeOf.{parameter_tree, variable_tree, setting_tree};
ghost use Rattle.qs_print.specs.Rows.{declarator_row, initialiser_row, length_row, parameter_row};
ghost use Rattle.qs_print.specs.Rows.{row_or_void, variable_row};

use crate::expressions::put_part;
use crate::levels::{ASSIGNMENT, CONDITIONAL};
use crate::types::{put_base, put_stars};
use crate::words::{put_comma_unless, put_keyword, put_name, put_punctuator};
use qs_base::{Name, NoMemory};
use qs_syntax::{
    Base, Declaration, Declarator, Expr, Initialiser, Lengths, Members, Parameter, Variable,
};
use qs_syntax_vocabulary::{Keyword, Punctuator};

fn put_length(out: &mut Vec<u8>, e: &Expr) -> Result<(), NoMemory>
    ensures { OnOk result (Puts out.old (printed_length (expr_tree e.now)) out.new) }
{
    put_punctuator(out, Punctuator::OpenBracket)?;
    put_part(out, CONDITIONAL, e)?;
    put_punctuator(out, Punctuator::CloseBracket)
}

fn put_given(out: &mut Vec<u8>, lengths: &[Expr]) -> Result<(), NoMemory>
    ensures { OnOk result (Puts out.old (length_row lengths.now) out.new) }
{
    for e in lengths {
        put_length(out, e)?;
    }
    Ok(())
}

fn put_open_brackets(out: &mut Vec<u8>, is_open: bool) -> Result<(), NoMemory>
    ensures { OnOk result (Puts out.old (open_brackets is_open) out.new) }
{
    if !is_open {
        return Ok(());
    }
    put_punctuator(out, Punctuator::OpenBracket)?;
    put_punctuator(out, Punctuator::CloseBracket)
}

fn put_lengths(out: &mut Vec<u8>, lengths: &Lengths) -> Result<(), NoMemory>
    ensures { OnOk result (Puts out.old (printed_lengths (lengths_tree lengths.now)) out.new) }
{
    put_open_brackets(out, lengths.is_open)?;
    put_given(out, &lengths.given)
}

fn put_declarator(out: &mut Vec<u8>, d: &Declarator) -> Result<(), NoMemory>
    ensures { OnOk result (Puts out.old (printed_declarator (declarator_tree d.now)) out.new) }
{
    put_stars(out, d.stars)?;
    put_name(out, &d.name)?;
    put_lengths(out, &d.lengths)
}

#[cycle(put_initialiser)]
fn put_initialiser(out: &mut Vec<u8>, i: &Initialiser) -> Result<(), NoMemory>
    ensures { OnOk result (Puts out.old (printed_initialiser (initialiser_tree i.now)) out.new) }
{
    match i {
        Initialiser::Value(e) => put_part(out, ASSIGNMENT, e),
        Initialiser::List(list) => {
            put_punctuator(out, Punctuator::OpenBrace)?;
            put_initialisers(out, &list.items)?;
            put_punctuator(out, Punctuator::CloseBrace)
        }
    }
}

#[cycle(put_initialiser)]
fn put_initialisers(out: &mut Vec<u8>, items: &[Initialiser]) -> Result<(), NoMemory>
    ensures { OnOk result (Puts out.old (initialiser_row items.now) out.new) }
{
    let mut is_first = true;
    for i in items {
        put_comma_unless(out, is_first)?;
        put_initialiser(out, i)?;
        is_first = false;
    }
    Ok(())
}

fn put_setting(out: &mut Vec<u8>, setting: &Option<Initialiser>) -> Result<(), NoMemory>
    ensures { OnOk result (Puts out.old (printed_setting (setting_tree setting.now)) out.new) }
{
    match setting {
        None => Ok(()),
        Some(i) => {
            put_punctuator(out, Punctuator::Assign)?;
            put_initialiser(out, i)
        }
    }
}

fn put_variable(out: &mut Vec<u8>, v: &Variable) -> Result<(), NoMemory>
    ensures { OnOk result (Puts out.old (printed_variable (variable_tree v.now)) out.new) }
{
    put_declarator(out, &v.declarator)?;
    put_setting(out, &v.initialiser)
}

fn put_variables(out: &mut Vec<u8>, variables: &[Variable]) -> Result<(), NoMemory>
    ensures { OnOk result (Puts out.old (variable_row variables.now) out.new) }
{
    let mut is_first = true;
    for v in variables {
        put_comma_unless(out, is_first)?;
        put_variable(out, v)?;
        is_first = false;
    }
    Ok(())
}

/// Writes variables that are declared together.
pub fn put_declaration(out: &mut Vec<u8>, d: &Declaration) -> Result<(), NoMemory>
    ensures { OnOk result (Puts out.old (printed_declaration (declaration_tree d.now)) out.new) }
{
    put_base(out, &d.base)?;
    put_variables(out, &d.variables)?;
    put_punctuator(out, Punctuator::Semicolon)
}

/// Writes declarators with commas between.
pub fn put_declarators(out: &mut Vec<u8>, declarators: &[Declarator]) -> Result<(), NoMemory>
    ensures { OnOk result (Puts out.old (declarator_row declarators.now) out.new) }
{
    let mut is_first = true;
    for d in declarators {
        put_comma_unless(out, is_first)?;
        put_declarator(out, d)?;
        is_first = false;
    }
    Ok(())
}

/// Writes members that are declared together.
pub fn put_members(out: &mut Vec<u8>, m: &Members) -> Result<(), NoMemory>
    ensures { OnOk result (Puts out.old (printed_members (members_tree m.now)) out.new) }
{
    put_base(out, &m.base)?;
    put_declarators(out, &m.declarators)?;
    put_punctuator(out, Punctuator::Semicolon)
}

/// Whether a parameter would be the token `void` alone.
fn is_void_alone(p: &Parameter) -> bool
    ensures { result ≡ is_void_alone (parameter_tree p.now) }
{
    match (&p.type_name.base, p.type_name.stars, &p.name) {
        (Base::Void, 0, None) => !p.lengths.is_open && p.lengths.given.is_empty(),
        _ => false,
    }
}

fn put_const_if(out: &mut Vec<u8>, is_const: bool) -> Result<(), NoMemory>
    ensures { OnOk result (Puts out.old (const_if is_const) out.new) }
{
    if is_const {
        put_keyword(out, Keyword::Const)
    } else {
        Ok(())
    }
}

/// Writes a name where there is one.
pub fn put_optional_name(out: &mut Vec<u8>, name: &Option<Name>) -> Result<(), NoMemory>
    ensures { OnOk result (Puts out.old (printed_name name.now) out.new) }
{
    match name {
        None => Ok(()),
        Some(name) => put_name(out, name),
    }
}

fn put_parameter(out: &mut Vec<u8>, p: &Parameter) -> Result<(), NoMemory>
    ensures { OnOk result (Puts out.old (printed_parameter (parameter_tree p.now)) out.new) }
{
    put_const_if(out, is_void_alone(p))?;
    put_base(out, &p.type_name.base)?;
    put_stars(out, p.type_name.stars)?;
    put_optional_name(out, &p.name)?;
    put_lengths(out, &p.lengths)
}

fn put_some_parameters(out: &mut Vec<u8>, parameters: &[Parameter]) -> Result<(), NoMemory>
    ensures { OnOk result (Puts out.old (parameter_row parameters.now) out.new) }
{
    let mut is_first = true;
    for p in parameters {
        put_comma_unless(out, is_first)?;
        put_parameter(out, p)?;
        is_first = false;
    }
    Ok(())
}

/// Writes parameters, `void` where there are none.
pub fn put_parameters(out: &mut Vec<u8>, parameters: &[Parameter]) -> Result<(), NoMemory>
    ensures { OnOk result (Puts out.old (row_or_void parameters.now) out.new) }
{
    if parameters.is_empty() {
        return put_keyword(out, Keyword::Void);
    }
    put_some_parameters(out, parameters)
}
