// The image that was read.
ghost use Rattle.std.specs.Prelude.{◌≡◌, ◌<◌, length, slice_get, slice_index, Some};
ghost use Rattle.qs_image.specs.Image.{IsWellFormed};

use crate::records::RecordView;
use crate::sections::Sections;
use crate::word::word;
use std::marker::Model;

/// An image that was read, over the bytes that were read. Contracts see it as a pure image that
/// keeps to its form: `IsWellFormed`. No call takes memory.
#[derive(Drop)]
pub struct ImageView<'a> {
    pub(crate) sections: Sections<'a>,
}

impl<'a> Model for ImageView<'a> {
    ghost use Rattle.std.specs.Prelude.{◌≡◌, length};
    ghost use Rattle.qs_image.specs.Image.{Image, IsWellFormed};
    ghost use Rattle.qs_image.specs.View.{image_in};

    ghost Value = { Image };

    ghost view = { λ v. image_in v.sections };

    ghost invariant = { λ v. IsWellFormed (image_in v.sections) };
}

impl<'a> ImageView<'a> {
    ghost use Rattle.qs_image.specs.Bytes.{version_number};
    ghost use Rattle.qs_image.specs.View.{record_of};

    /// The version of the bytes, 1 or 2.
    pub fn version(&self) -> u32
        ensures { result ≡ version_number self.now.version }
    {
        self.sections.version.number()
    }

    /// The address of the first instruction to run.
    pub fn entry(&self) -> u32
        ensures value { result ≡ self.now.entry }
        ensures well_formed { IsWellFormed self.now }
    {
        self.sections.entry
    }

    /// The count of main's parameters.
    pub fn parameters(&self) -> u32
        ensures value { result ≡ self.now.parameters }
        ensures well_formed { IsWellFormed self.now }
    {
        self.sections.parameters
    }

    /// Bit i is set where parameter i of main is `unsigned`.
    pub fn unsigned_set(&self) -> u32
        ensures value { result ≡ self.now.unsigned_set }
        ensures well_formed { IsWellFormed self.now }
    {
        self.sections.unsigned_set
    }

    /// The count of functions.
    pub fn function_count(&self) -> u32
        ensures value { result ≡ length self.now.functions }
        ensures well_formed { IsWellFormed self.now }
    {
        self.sections.function_count()
    }

    /// Function number `i`, from 0, in time proportional to `i`: the names before its own have to
    /// be passed.
    pub fn functions(&self, i: u32) -> RecordView<'_>
        requires { i < length self.now.functions }
        ensures { slice_get self.now.functions i ≡ Some (record_of result) }
    {
        self.sections.records().nth(i as usize).unwrap()
    }

    /// The count of words of code.
    pub fn code_count(&self) -> u32
        ensures value { result ≡ length self.now.code }
        ensures well_formed { IsWellFormed self.now }
    {
        self.sections.code_count()
    }

    /// Word number `i` of the code, from 0.
    pub fn code(&self, i: u32) -> u32
        requires { i < length self.now.code }
        ensures { result ≡ slice_index self.now.code i }
    {
        word(self.sections.code, i as usize)
    }

    /// The count of bytes of data.
    pub fn byte_count(&self) -> u32
        ensures value { result ≡ length self.now.bytes }
        ensures well_formed { IsWellFormed self.now }
    {
        self.sections.data.len() as u32
    }

    /// Byte number `i` of the data, from 0.
    pub fn bytes(&self, i: u32) -> u8
        requires { i < length self.now.bytes }
        ensures { result ≡ slice_index self.now.bytes i }
    {
        self.sections.data[i as usize]
    }
}
