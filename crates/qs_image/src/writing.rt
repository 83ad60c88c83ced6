// Writing an image.
ghost use Rattle.std.specs.Prelude.{[], ◌∷◌, All, ◌≡◌, ◌<◌, ◌^◌, ◌++◌, length, OnOk, IfOk};
ghost use Rattle.qs_image.specs.Image.{Writes, joined_names, header_words, record_words, IsImage};

use crate::image::{FunctionRecord, Image};
use crate::word::put_word;
use qs_base::NoMemory;
use std::alloc::Global;

fn names_length(functions: &[FunctionRecord]) -> usize
    requires { length (joined_names functions.now) < 2 ^ 32 }
    ensures { result ≡ length (joined_names functions.now) }
{
    let mut length = 0;
    for f in functions {
        length += f.name.bytes().len();
    }
    length
}

fn put_words(bytes: &mut Vec<u8>, words: &[u32]) -> Result<(), NoMemory>
    ensures { OnOk result (Writes bytes.old.items bytes.new.items words.now) }
{
    for word in words {
        put_word(bytes, *word)?;
    }
    Ok(())
}

fn put_header(bytes: &mut Vec<u8>, image: &Image) -> Result<(), NoMemory>
    ensures { OnOk result (Writes bytes.old.items bytes.new.items (header_words image.now)) }
{
    let words = [
        image.code.len() as u32,
        image.bytes.len() as u32,
        image.functions.len() as u32,
        names_length(&image.functions) as u32,
        image.entry,
        image.parameters,
        image.unsigned_set,
    ];
    put_words(bytes, &words)
}

fn put_record(bytes: &mut Vec<u8>, f: &FunctionRecord) -> Result<(), NoMemory>
    requires { length f.now.name < 2 ^ 32 }
    ensures { OnOk result (Writes bytes.old.items bytes.new.items (record_words (f.now ∷ []))) }
{
    let words = [f.name.bytes().len() as u32, f.address, f.cost, f.parameters];
    put_words(bytes, &words)
}

fn put_records(bytes: &mut Vec<u8>, functions: &[FunctionRecord]) -> Result<(), NoMemory>
    requires { All (λ f. length f.name < 2 ^ 32) functions.now }
    ensures { OnOk result (Writes bytes.old.items bytes.new.items (record_words functions.now)) }
{
    for f in functions {
        put_record(bytes, f)?;
    }
    Ok(())
}

fn put_names(bytes: &mut Vec<u8>, functions: &[FunctionRecord]) -> Result<(), NoMemory>
    ensures { OnOk result (bytes.new.items ≡ bytes.old.items ++ joined_names functions.now) }
{
    for f in functions {
        bytes.extend_from_slice(f.name.bytes())?;
    }
    Ok(())
}

/// The bytes of an image in version 2, as `read` reads them.
pub fn write(alloc: Global, image: &Image) -> Result<Vec<u8>, NoMemory>
    ensures { IfOk result (λ bytes. IsImage bytes.items image.now) }
{
    let mut bytes = Vec::new(alloc);
    bytes.extend_from_slice(b"QSI2")?;
    put_header(&mut bytes, image)?;
    put_records(&mut bytes, &image.functions)?;
    put_names(&mut bytes, &image.functions)?;
    put_words(&mut bytes, &image.code)?;
    bytes.extend_from_slice(&image.bytes)?;
    Ok(bytes)
}
