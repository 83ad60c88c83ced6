// The values that the words give, by their keys.
ghost use Rattle.std.specs.Prelude.{◌≡◌, IfOk, None, Some, false, string_bytes, codes};
ghost use Rattle.qs_cli.specs.Words.{operand, among, names_of};
ghost use Rattle.qs_cli.specs.Numbers.{steps_of, arguments_of};
ghost use Rattle.qs_cli.specs.Commands.{stack_of, sample_count_of};
ghost use Rattle.qs_cli.specs.Reading.{arguments_text, options_of, text_of, values_in, values_of};
ghost use Rattle.qs_cli.specs.Reading.{IsUsage};

use crate::commands::CliFault;
use crate::flat::flat_matches;
use crate::numbers;
use crate::table::{OPERAND, OptionRule};
use clap::ArgMatches;
use qs_base::NoMemory;
use std::alloc::Global;

/// The values of a command's operand and options. A call answers Usage where its value has no
/// meaning.
#[derive(Drop)]
pub(crate) struct Values<'a> {
    matches: ArgMatches<'a>,
}

impl<'a> Values<'a> {
    /// The values of the words behind a command's name.
    pub fn read(
        alloc: Global,
        options: &'a [OptionRule],
        words: &'a [String],
    ) -> Result<Values<'a>, CliFault>
        requires { among operand (names_of (options_of options.now)) ≡ false }
        ensures ok { IfOk result (λ v. values_in options.now words.entry.now ≡ Some (values_of v)) }
        ensures usage { IsUsage result → values_in options.now words.entry.now ≡ None }
    {
        let matches = flat_matches(alloc, options, words)?;
        Ok(Values { matches })
    }

    /// The text that has to stand under this key.
    pub fn text(&self, alloc: Global, key: &str) -> Result<String, CliFault>
        ensures ok { IfOk result (λ t. values_of self.now key.now ≡ Some (string_bytes t)) }
        ensures usage { IsUsage result → values_of self.now key.now ≡ None }
    {
        match self.matches.get_str(key) {
            Some(text) => Ok(String::from_str(alloc, text)?),
            None => Err(CliFault::Usage),
        }
    }

    /// The text under this key, if there is one.
    pub fn optional_text(&self, alloc: Global, key: &str) -> Result<Option<String>, NoMemory>
        ensures { IfOk result (λ t. values_of self.now key.now ≡ text_of t) }
    {
        match self.matches.get_str(key) {
            Some(text) => Ok(Some(String::from_str(alloc, text)?)),
            None => Ok(None),
        }
    }

    /// The number of bytes of the stack.
    pub fn stack(&self) -> Result<u64, CliFault>
        ensures ok { IfOk result (λ n. stack_of (values_of self.now (codes "stack")) ≡ Some n) }
        ensures usage { IsUsage result → stack_of (values_of self.now (codes "stack")) ≡ None }
    {
        let Some(text) = self.matches.get_str("stack") else {
            return Err(CliFault::Usage);
        };
        numbers::number(text, 19).ok_or(CliFault::Usage)
    }

    /// The number of functions of a sample, which is its operand.
    pub fn sample_count(&self) -> Result<u64, CliFault>
        ensures ok { IfOk result (λ n. sample_count_of (values_of self.now operand) ≡ Some n) }
        ensures usage { IsUsage result → sample_count_of (values_of self.now operand) ≡ None }
    {
        let Some(text) = self.matches.get_str(OPERAND) else {
            return Err(CliFault::Usage);
        };
        numbers::count(text).ok_or(CliFault::Usage)
    }

    /// The most steps of a run.
    pub fn steps(&self) -> Result<u64, CliFault>
        ensures ok { IfOk result (λ n. steps_of (values_of self.now (codes "steps")) ≡ Some n) }
        ensures usage { IsUsage result → steps_of (values_of self.now (codes "steps")) ≡ None }
    {
        numbers::steps(self.matches.get_str("steps")).ok_or(CliFault::Usage)
    }

    /// The arguments of `main`.
    pub fn arguments(&self, alloc: Global) -> Result<Vec<i64>, CliFault>
        ensures ok { IfOk result (λ v. arguments_of (arguments_text self.now) ≡ Some v.items) }
        ensures usage { IsUsage result → arguments_of (arguments_text self.now) ≡ None }
    {
        numbers::arguments(alloc, self.matches.get_str("args"))
    }
}
