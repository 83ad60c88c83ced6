// Lists and atoms, laid out for people.
ghost use Rattle.std.specs.Prelude.{◌≡◌, ◌++◌, reverse, replicate, OnOk};
ghost use Rattle.qs_base.specs.Characters.{space};
ghost use Rattle.qs_sexpr.specs.Gaps.{gap_view};
ghost use Rattle.qs_sexpr.specs.Marks.{layer_of, layers_behind, mark_of};
ghost use Rattle.qs_sexpr.specs.Pages.{ClosesList, LaysOut, OpensList, PutsMark, PutsWord};

use crate::layout::{Gap, Layer};
use crate::sizes::{list_sizes, take_size};
use crate::token::Token;
use itoa::Buffer;
use qs_base::NoMemory;
use std::alloc::Global;

/// The text so far, and the lists that are open in it.
#[derive(Drop)]
pub struct Page {
    pub text: Vec<u8>,
    /// The innermost list that is open.
    pub layer: Layer,
    /// The lists around it, the outermost first.
    pub outer: Vec<Layer>,
    /// The sizes of the lists that are still to come, the last first.
    pub sizes: Vec<usize>,
}

fn put(text: &mut Vec<u8>, bytes: &[u8]) -> Result<(), NoMemory>
    ensures { OnOk result (text.new.items ≡ text.old.items ++ bytes.now) }
{
    text.extend_from_slice(bytes)?;
    Ok(())
}

fn put_blanks(text: &mut Vec<u8>, count: usize) -> Result<(), NoMemory>
    ensures { OnOk result (text.new.items ≡ text.old.items ++ replicate count space) }
{
    for _k in 0..count {
        text.push(b' ')?;
    }
    Ok(())
}

fn put_gap(text: &mut Vec<u8>, gap: Gap) -> Result<(), NoMemory>
    ensures { OnOk result (text.new.items ≡ text.old.items ++ gap_view gap) }
{
    match gap {
        Gap::Nothing => Ok(()),
        Gap::Blank => put(text, b" "),
        Gap::NewLine(column) => {
            put(text, b"\n")?;
            put_blanks(text, column)
        }
    }
}

fn take_layer(outer: &mut Vec<Layer>) -> Layer
    ensures layer { result ≡ layer_of (reverse outer.old.items) }
    ensures left { reverse outer.new.items ≡ layers_behind (reverse outer.old.items) }
{
    match outer.pop() {
        Some(layer) => layer,
        None => Layer::Top,
    }
}

impl Page {
    fn put_word(&mut self, bytes: &[u8]) -> Result<(), NoMemory>
        ensures { OnOk result (PutsWord bytes.now self.old self.new) }
    {
        put_gap(&mut self.text, self.layer.before(true, bytes.len()))?;
        put(&mut self.text, bytes)?;
        put_gap(&mut self.text, self.layer.line_end())?;
        self.layer = self.layer.behind(true, bytes.len());
        Ok(())
    }

    fn open(&mut self) -> Result<(), NoMemory>
        ensures { OnOk result (OpensList self.old self.new) }
    {
        put_gap(&mut self.text, self.layer.before(false, 0))?;
        put(&mut self.text, b"(")?;
        self.outer.push(self.layer.behind(false, 0))?;
        self.layer = self.layer.inside(take_size(&mut self.sizes));
        Ok(())
    }

    fn close(&mut self) -> Result<(), NoMemory>
        ensures { OnOk result (ClosesList self.old self.new) }
    {
        put_gap(&mut self.text, self.layer.ending())?;
        put(&mut self.text, b")")?;
        self.layer = take_layer(&mut self.outer);
        put_gap(&mut self.text, self.layer.line_end())
    }

    fn put_token(&mut self, token: Token<'_>) -> Result<(), NoMemory>
        ensures { PutsMark (mark_of token.entry) self.old self.new result }
    {
        match token {
            Token::Open => self.open(),
            Token::Close => self.close(),
            Token::Symbol(bytes) => self.put_word(bytes),
            Token::Number(value) => {
                let mut digits = Buffer::new();
                self.put_word(digits.format(value).as_bytes())
            }
            Token::Natural(value) => {
                let mut digits = Buffer::new();
                self.put_word(digits.format(value).as_bytes())
            }
        }
    }
}

/// The text of these lists and atoms, laid out for people: a list that fits stands on one line, and
/// else its parts stand on lines of their own, further to the right.
pub fn write(alloc: Global, tokens: &[Token<'_>]) -> Result<Vec<u8>, NoMemory>
    ensures { LaysOut tokens.now result }
{
    let mut page = Page {
        text: Vec::new(alloc),
        layer: Layer::Top,
        outer: Vec::new(alloc),
        sizes: list_sizes(alloc, tokens)?,
    };
    for token in tokens {
        page.put_token(*token)?;
    }
    Ok(page.text)
}
