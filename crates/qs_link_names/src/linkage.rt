// Names with internal linkage (C11 6.2.2).
ghost use Rattle.std.specs.Prelude.{◌≡◌, IfOk, OnOk};
ghost use Rattle.qs_syntax_vocabulary.specs.Marks.{is_in};
ghost use Rattle.qs_link_names.specs.InternalOf.{internal_of};
ghost use Rattle.qs_link_names.specs.Linkage as spec;

use indexmap::IndexSet;
use itoa::Buffer;
use qs_base::{Name, NoMemory};
use std::alloc::Global;

/// The names of a file that have internal linkage, and those that inner declarations hide.
#[derive(Drop)]
pub struct Internal<'a> {
    file: u32,
    names: &'a IndexSet<Name>,
    hidden: Vec<&'a Name>,
}

/// The name in the program of a name with internal linkage in the file with this number, from 1.
pub fn internal_name(alloc: Global, file: u32, name: &Name) -> Result<Name, NoMemory>
    ensures { IfOk result (λ to. to ≡ spec.internal_name file name.now) }
{
    let mut text = Vec::from_slice(alloc, name.bytes())?;
    text.extend_from_slice(b"__")?;
    let mut digits = Buffer::new();
    text.extend_from_slice(digits.format(file).as_bytes())?;
    Name::new(alloc, &text)
}

impl<'a> Internal<'a> {
    /// These names, at file scope.
    pub fn new(alloc: Global, file: u32, names: &'a IndexSet<Name>) -> Internal<'a>
        ensures { internal_of result ≡ spec.internal file names.now.keys }
    {
        Internal {
            file,
            names,
            hidden: Vec::new(alloc),
        }
    }

    fn is_hidden(&self, name: &Name) -> bool
        ensures { result ≡ is_in (internal_of self.now).hidden name.now }
    {
        for other in &self.hidden {
            if *name == **other {
                return true;
            }
        }
        false
    }

    /// Whether the name has internal linkage, and isn't hidden.
    fn is_internal(&self, name: &Name) -> bool
        ensures { result ≡ spec.is_internal (internal_of self.now) name.now }
    {
        self.names.contains(name) && !self.is_hidden(name)
    }

    /// The name in the program.
    pub fn linked(&self, alloc: Global, name: &Name) -> Result<Name, NoMemory>
        ensures { IfOk result (λ to. to ≡ spec.linked_name (internal_of self.now) name.now) }
    {
        if self.is_internal(name) {
            internal_name(alloc, self.file, name)
        } else {
            name.copy(alloc)
        }
    }

    /// The same names, for an inner scope.
    pub fn inner(&self, alloc: Global) -> Result<Internal<'a>, NoMemory>
        ensures { IfOk result (λ to. internal_of to ≡ internal_of self.now) }
    {
        Ok(Internal {
            file: self.file,
            names: self.names,
            hidden: Vec::from_slice(alloc, &self.hidden)?,
        })
    }

    /// Hides a name up to the end of the scope (C11 6.2.1p4).
    pub fn hide(&mut self, name: &'a Name) -> Result<(), NoMemory>
        ensures { OnOk result (internal_of self.new ≡ spec.hiding (internal_of self.old) name.now) }
    {
        self.hidden.push(name)?;
        Ok(())
    }
}
