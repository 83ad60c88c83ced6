// Records of functions in a table, and their names.
ghost use Rattle.std.specs.Prelude.{[], MatchOption, ◌≡◌, ◌≤◌, ◌==◌, length, sum, bytes_eq};
ghost use Rattle.std.specs.List.{list_all, list_any};
ghost use Rattle.qs_base.specs.Names.{is_name};
ghost use Rattle.qs_image.specs.Limits.{most_code_words, most_functions};
ghost use Rattle.qs_image.specs.Faults.{all_differ, are_names, is_address, is_cost, cost_fault};
ghost use Rattle.qs_image.specs.Faults.{has_parameters, parameters_fault};
ghost use Rattle.qs_image.specs.View.{record_of};

use crate::fault::ImageFault;
use crate::limits::LARGEST_COST;
use crate::version::Version;
use crate::word::word;
use qs_base::{MOST_PARAMETERS, is_name};
use qs_isa::CODE_START;

/// The record of a function in an image that was read.
#[derive(Clone, Copy)]
pub struct RecordView<'a> {
    /// The name.
    pub name: &'a [u8],
    /// The address of the first instruction.
    pub address: u32,
    /// The bytes of stack that a call costs.
    pub cost: u32,
    /// The count of parameters, which a record of version 1 doesn't say.
    pub parameters: Option<u32>,
}

/// The records of a table, whose names lie one after the other. Of a name that passes the end of
/// the names there is what is there.
#[derive(Clone, Copy)]
pub struct Records<'a> {
    /// The version of the image.
    pub version: Version,
    /// As many bytes for each record as it has in this version.
    pub table: &'a [u8],
    /// The names.
    pub names: &'a [u8],
}

impl<'a> Iterator for Records<'a> {
    ghost use Rattle.std.specs.Iterator.{YieldsFirstBy, item_count};
    ghost use Rattle.qs_image.specs.View.{record_of, records_left};

    type Item = RecordView<'a>;

    ghost next_gives = { YieldsFirstBy record_of records_left };

    ghost remaining = { item_count records_left };

    fn next(&mut self) -> Option<RecordView<'a>> {
        let (record, others) = self.split_first()?;
        *self = others;
        Some(record)
    }
}

/// Whether this is the address of one of `count` instructions.
pub fn is_address(count: u32, address: u32) -> bool
    requires { count ≤ most_code_words }
    ensures { result ≡ is_address count address }
{
    CODE_START <= address && address < CODE_START + 4 * count && address % 4 == 0
}

fn is_cost(cost: u32) -> bool
    ensures { result ≡ is_cost cost }
{
    1 <= cost && cost <= LARGEST_COST && cost % 16 == 0
}

// Whether a record may say this: a count that a function may have, and for main the image's.
fn has_parameters(main_parameters: u32, function: &RecordView<'_>) -> bool
    ensures { result ≡ has_parameters main_parameters (record_of function.now) }
{
    match function.parameters {
        None => true,
        Some(count) => {
            count <= MOST_PARAMETERS
                && (function.name != b"main".as_slice() || count == main_parameters)
        }
    }
}

impl<'a> Records<'a> {
    ghost use Rattle.qs_image.specs.View.{records_left, lengths_left, BeginsWith};

    /// The first record, and the others.
    fn split_first(&self) -> Option<(RecordView<'a>, Records<'a>)>
        ensures { MatchOption result (records_left self.now ≡ []) (BeginsWith self.now) }
    {
        let record_bytes = self.version.record_bytes();
        if self.table.len() < record_bytes {
            return None;
        }
        let length = (word(self.table, 0) as usize).min(self.names.len());
        let (name, names) = self.names.split_at(length);
        let (_, table) = self.table.split_at(record_bytes);
        let record = RecordView {
            name,
            address: word(self.table, 1),
            cost: word(self.table, 2),
            parameters: self.version.first_parameters(self.table),
        };
        let others = Records {
            version: self.version,
            table,
            names,
        };
        Some((record, others))
    }

    /// Whether the lengths that the records say add up to the bytes of names.
    pub fn lengths_add_up(&self) -> bool
        ensures { result ≡ (sum (lengths_left self.now) == length self.now.names.now) }
    {
        let record_bytes = self.version.record_bytes();
        let mut table = self.table;
        let mut left = self.names.len();
        while table.len() >= record_bytes {
            let length = word(table, 0) as usize;
            if length > left {
                return false;
            }
            left -= length;
            let (_, others) = table.split_at(record_bytes);
            table = others;
        }
        left == 0
    }

    fn are_all_names(&self) -> bool
        ensures { result ≡ list_all (λ f. is_name f.name) (records_left self.now) }
    {
        let mut records = *self;
        records.all(|record| is_name(record.name))
    }

    fn has_name(&self, name: &[u8]) -> bool
        ensures { result ≡ list_any (λ f. bytes_eq f.name name.now) (records_left self.now) }
    {
        let mut records = *self;
        records.any(|record| record.name == name)
    }

    fn all_differ(&self) -> bool
        ensures { result ≡ all_differ (records_left self.now) }
    {
        let mut records = *self;
        while let Some(record) = records.next() {
            if records.has_name(record.name) {
                return false;
            }
        }
        true
    }

    /// Whether each name is a name of the language, they differ, and one is `main`. Takes time in
    /// the square of the count.
    pub fn are_names(&self) -> bool
        ensures { result ≡ are_names (records_left self.now) }
    {
        self.are_all_names() && self.all_differ() && self.has_name(b"main")
    }

    /// Whether each address is that of one of `count` instructions.
    pub fn are_addresses(&self, count: u32) -> bool
        requires { count ≤ most_code_words }
        ensures { result ≡ list_all (λ f. is_address count f.address) (records_left self.now) }
    {
        let mut records = *self;
        records.all(|record| is_address(count, record.address))
    }

    /// The fault of the first record whose cost is none.
    pub fn cost_fault(&self) -> Option<ImageFault>
        requires { length (records_left self.now) ≤ most_functions }
        ensures { result ≡ cost_fault (records_left self.now) }
    {
        let mut records = *self;
        let i = records.position(|record| !is_cost(record.cost))?;
        Some(ImageFault::Cost(i as u32))
    }

    /// The fault of the first record whose count of parameters is none, where main has so many.
    pub fn parameters_fault(&self, main_parameters: u32) -> Option<ImageFault>
        requires { length (records_left self.now) ≤ most_functions }
        ensures { result ≡ parameters_fault main_parameters (records_left self.now) }
    {
        let mut records = *self;
        let i = records.position(|record| !has_parameters(main_parameters, &record))?;
        Some(ImageFault::Params(i as u32))
    }
}
