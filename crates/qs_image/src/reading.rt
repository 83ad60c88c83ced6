// Reading an image.
ghost use Rattle.std.specs.Prelude.{◌≡◌, ◌≤◌, length, MatchResult, IfOk, IsOkAnd};
ghost use Rattle.qs_image.specs.Limits.{most_code_words, most_functions};
ghost use Rattle.qs_image.specs.Bytes.{header_bytes};
ghost use Rattle.qs_image.specs.Image.{Image, IsImage};
ghost use Rattle.qs_image.specs.Faults.{are_addresses, first_of, count_tests};
ghost use Rattle.qs_image.specs.Faults.{header_tests, size_tests, HasNoFault, IsFirstFault};
ghost use Rattle.qs_image.specs.View.{image_in, have_names, section_tests, AreSections};

use crate::fault::{HeaderWord, ImageFault};
use crate::limits::{MOST_CODE_WORDS, MOST_DATA_BYTES, MOST_FUNCTIONS, MOST_NAME_BYTES};
use crate::records::is_address;
use crate::sections::{HEADER_BYTES, Sections, table_bytes};
use crate::view::ImageView;
use crate::word::header_word;
use qs_base::MOST_MAIN_PARAMETERS;

fn count_fault(bytes: &[u8]) -> Option<ImageFault>
    requires { header_bytes ≤ length bytes.now }
    ensures { result ≡ first_of (count_tests bytes.now) }
{
    let code_count = header_word(bytes, HeaderWord::CodeCount);
    let byte_count = header_word(bytes, HeaderWord::ByteCount);
    let function_count = header_word(bytes, HeaderWord::FunctionCount);
    let names_length = header_word(bytes, HeaderWord::NamesLength);
    let parameters = header_word(bytes, HeaderWord::Parameters);
    let unsigned_set = header_word(bytes, HeaderWord::UnsignedSet);
    if code_count < 1 || code_count > MOST_CODE_WORDS {
        Some(ImageFault::Count(HeaderWord::CodeCount))
    } else if byte_count > MOST_DATA_BYTES {
        Some(ImageFault::Count(HeaderWord::ByteCount))
    } else if function_count < 1 || function_count > MOST_FUNCTIONS {
        Some(ImageFault::Count(HeaderWord::FunctionCount))
    } else if names_length < 1 || names_length > MOST_NAME_BYTES {
        Some(ImageFault::Count(HeaderWord::NamesLength))
    } else if parameters > MOST_MAIN_PARAMETERS {
        Some(ImageFault::Count(HeaderWord::Parameters))
    } else if unsigned_set >> parameters != 0 {
        Some(ImageFault::Count(HeaderWord::UnsignedSet))
    } else {
        None
    }
}

fn header_fault(bytes: &[u8]) -> Option<ImageFault>
    ensures { result ≡ first_of (header_tests bytes.now) }
{
    if bytes.len() < HEADER_BYTES {
        Some(ImageFault::Short)
    } else if !bytes.starts_with(b"QSI1") && !bytes.starts_with(b"QSI2") {
        Some(ImageFault::Magic)
    } else {
        count_fault(bytes)
    }
}

fn size_fault(bytes: &[u8]) -> Option<ImageFault>
    requires { header_bytes ≤ length bytes.now }
    ensures { result ≡ first_of (size_tests bytes.now) }
{
    let size = HEADER_BYTES
        + table_bytes(bytes)
        + header_word(bytes, HeaderWord::NamesLength) as usize
        + 4 * header_word(bytes, HeaderWord::CodeCount) as usize
        + header_word(bytes, HeaderWord::ByteCount) as usize;
    if bytes.len() < size {
        Some(ImageFault::Short)
    } else if bytes.len() > size {
        Some(ImageFault::Trailing)
    } else {
        None
    }
}

fn are_names(sections: &Sections<'_>) -> bool
    ensures { result ≡ have_names sections.now }
{
    let records = sections.records();
    records.lengths_add_up() && records.are_names()
}

fn are_addresses(sections: &Sections<'_>) -> bool
    requires { length (image_in sections.now).code ≤ most_code_words }
    ensures { result ≡ are_addresses (image_in sections.now) }
{
    let count = sections.code_count();
    is_address(count, sections.entry) && sections.records().are_addresses(count)
}

fn part_fault(sections: &Sections<'_>) -> Option<ImageFault>
    requires code { length (image_in sections.now).code ≤ most_code_words }
    requires functions { length (image_in sections.now).functions ≤ most_functions }
    ensures { result ≡ first_of (section_tests sections.now) }
{
    if !are_names(sections) {
        Some(ImageFault::Names)
    } else if !are_addresses(sections) {
        Some(ImageFault::Entry)
    } else {
        let records = sections.records();
        match records.cost_fault() {
            Some(fault) => Some(fault),
            None => records.parameters_fault(sections.parameters),
        }
    }
}

fn sections_of(bytes: &[u8]) -> Result<Sections<'_>, ImageFault>
    ensures { MatchResult result (AreSections bytes.now) (IsFirstFault bytes.now) }
{
    if let Some(fault) = header_fault(bytes) {
        return Err(fault);
    }
    if let Some(fault) = size_fault(bytes) {
        return Err(fault);
    }
    let sections = Sections::of(bytes);
    match part_fault(&sections) {
        Some(fault) => Err(fault),
        None => Ok(sections),
    }
}

/// Reads an image, without taking memory. `Ok` comes exactly where the bytes are an image, which is
/// then the one that the view shows; else the fault is that of the first test that fails.
pub fn read(bytes: &[u8]) -> Result<ImageView<'_>, ImageFault>
    ensures image { IfOk result (λ image. IsImage bytes.now image) }
    ensures accepts { (image : Image) → IsImage bytes.now image → IsOkAnd result (λ v. v ≡ image) }
    ensures fault { MatchResult result (λ _. HasNoFault bytes.now) (IsFirstFault bytes.now) }
{
    let sections = sections_of(bytes)?;
    Ok(ImageView { sections })
}
