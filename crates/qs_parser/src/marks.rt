// Names that are types' (C11 6.7.8): each is marked among the tokens, once a typedef has declared
// it. Where a name stands is looked up, so that all marks together cost one visit of each token.
ghost use Rattle.std.specs.Prelude.{◌≡◌, ◌≤◌, map, take, length, IfOk, OnOk};
ghost use Rattle.qs_parser_grammar.specs.ParseMarked.{also, marked_also, last};
ghost use Rattle.qs_parser.specs.Places.{Indexes, Notes, NotesToken, also_at, marked_at};

use indexmap::IndexMap;
use qs_base::{Name, NoMemory};
use qs_syntax_vocabulary::{Punctuator, Terminal};
use std::alloc::Global;
use std::mem;

/// The token, as that of a type where it is this name.
fn as_type(token: Terminal, name: &Name) -> Terminal
    ensures { result ≡ also name.now token }
{
    match token {
        Terminal::Name(at, other) => {
            if other == *name {
                Terminal::TypeName(at, other)
            } else {
                Terminal::Name(at, other)
            }
        }
        other => other,
    }
}

fn mark_token(token: &mut Terminal, name: &Name)
    ensures { token.new ≡ also name.now token.old }
{
    let old = mem::replace(token, Terminal::Punctuator(0, Punctuator::Comma));
    *token = as_type(old, name);
}

/// Marks the token at this place, if there is one and it is this name.
fn mark_place(tokens: &mut [Terminal], place: usize, name: &Name)
    ensures { tokens.new ≡ also_at name.now place tokens.old }
{
    if place < tokens.len() {
        mark_token(&mut tokens[place], name);
    }
}

fn mark_places(tokens: &mut [Terminal], places: &[usize], name: &Name)
    ensures { tokens.new ≡ marked_at name.now places.now tokens.old }
{
    for place in places {
        mark_place(tokens, *place, name);
    }
}

/// Notes a further place of a name.
fn note(
    alloc: Global,
    places: &mut IndexMap<Name, Vec<usize>>,
    name: &Name,
    place: usize,
) -> Result<(), NoMemory>
    ensures { OnOk result (Notes name.now place places.old places.new) }
{
    let mut noted = match places.swap_remove(name) {
        Some(noted) => noted,
        None => Vec::new(alloc),
    };
    noted.push(place)?;
    places.insert(name.copy(alloc)?, noted)?;
    Ok(())
}

fn note_token(
    alloc: Global,
    places: &mut IndexMap<Name, Vec<usize>>,
    token: &Terminal,
    place: usize,
) -> Result<(), NoMemory>
    ensures { OnOk result (NotesToken token.now place places.old places.new) }
{
    match token {
        Terminal::Name(_at, name) => note(alloc, places, name, place),
        _ => Ok(()),
    }
}

/// The places of each name that is no type's.
fn places_of(alloc: Global, tokens: &[Terminal]) -> Result<IndexMap<Name, Vec<usize>>, NoMemory>
    ensures { IfOk result (λ places. Indexes places tokens.now) }
{
    let mut places = IndexMap::new(alloc);
    for place in 0..tokens.len() {
        note_token(alloc, &mut places, &tokens[place], place)?;
    }
    Ok(places)
}

/// Tokens, with the places of each name among them that is no type's.
#[derive(Drop)]
pub struct Marked {
    tokens: Vec<Terminal>,
    places: IndexMap<Name, Vec<usize>>,
    ghost known: { Indexes places tokens.items },
}

impl Marked {
    /// These tokens.
    pub fn new(alloc: Global, tokens: Vec<Terminal>) -> Result<Marked, NoMemory>
        ensures { IfOk result (λ marked. marked.tokens ≡ tokens) }
    {
        Ok(Marked {
            places: places_of(alloc, &tokens)?,
            tokens,
        })
    }

    /// How many they are.
    pub fn len(&self) -> usize
        ensures { result ≡ length self.now.tokens.items }
    {
        self.tokens.len()
    }

    /// The last `left` of them.
    pub fn unread(&self, left: usize) -> &[Terminal]
        requires { left ≤ length self.now.tokens.items }
        ensures { result.now ≡ last left self.now.tokens.items }
    {
        &self.tokens[self.tokens.len() - left..]
    }

    /// Marks this name among them as a type's.
    pub fn mark(&mut self, name: &Name)
        ensures { self.new.tokens.items ≡ marked_also name.now self.old.tokens.items }
    {
        if let Some(places) = self.places.swap_remove(name) {
            mark_places(&mut self.tokens, &places, name);
        }
    }
}
