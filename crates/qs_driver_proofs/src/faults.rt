// The status of a proof file whose proofs can't be certified.
ghost use Rattle.std.specs.Prelude.{◌≡◌, ◌<◌, ◌^◌, IfOk, Some, length};
ghost use Rattle.qs_core.specs.Trees.{CoreUnitTree};
ghost use Rattle.qs_core.specs.UnitTrees.{unit_tree};
ghost use Rattle.qs_certify.specs.Certification.{ToldOfFunctions};
ghost use Rattle.qs_certify.specs.Given.{text_of, IsShort};
ghost use Rattle.qs_certify.specs.declared.fault.CertifyFault.TheVariants as faults;
ghost use Rattle.qs_driver_proofs.specs.Refusals.{byte_of, names_of, AreFunctionsOf, TellsFault};
ghost use Rattle.qs_driver_proofs.specs.Refusals.{TellsOfAnyFile};

use crate::told::entry_told;
use qs_base::{FnId, Name, NoMemory};
use qs_certify::CertifyFault;
use qs_core::{CoreUnit, name_of};
use qs_driver_session::{ProofFault, Status, place};
use qs_prooftext_meaning::TextFault;
use std::alloc::Global;

// The byte at which a fault of the text stands.
fn byte_of(fault: TextFault) -> Option<u32>
    ensures { result ≡ byte_of fault }
{
    match fault {
        TextFault::NoMemory => None,
        TextFault::BadByte(at) => Some(at),
        TextFault::Unbalanced(at) => Some(at),
        TextFault::UnknownForm(at) => Some(at),
        TextFault::BadNumber(at) => Some(at),
        TextFault::TooDeep(at) => Some(at),
        TextFault::Duplicate(at) => Some(at),
        TextFault::NoSuchFunction(at) => Some(at),
    }
}

// The status of a proof file whose text has this fault.
fn text_told(text: &[u8], fault: TextFault) -> Status
    requires { length text.now < 2 ^ 31 }
    ensures { (u : CoreUnitTree) → TellsFault u (Some text.now) (faults.Text fault) result }
{
    match byte_of(fault) {
        Some(at) => Status::Proof(ProofFault::Text(fault, place(text, at as usize))),
        None => Status::NoMemory,
    }
}

// The status where the text of a proof file has this fault.
fn file_told(file: Option<&[u8]>, fault: TextFault) -> Status
    requires { IsShort (text_of file) }
    ensures { (u : CoreUnitTree) → TellsFault u (text_of file.entry) (faults.Text fault) result }
{
    match file {
        Some(text) => text_told(text, fault),
        None => Status::NoMemory,
    }
}

// The names of functions, in order.
fn names_of(alloc: Global, unit: &CoreUnit, functions: &[FnId]) -> Result<Vec<Name>, NoMemory>
    requires { AreFunctionsOf unit.now functions.now }
    ensures { IfOk result (λ names. names.items ≡ names_of (unit_tree unit.now) functions.now) }
{
    let mut names = Vec::new(alloc);
    for f in functions {
        names.push(name_of(alloc, unit, *f)?)?;
    }
    Ok(names)
}

// The status of functions without an entry that call each other in turn.
fn cycle_told(alloc: Global, unit: &CoreUnit, functions: Vec<FnId>) -> Status
    requires { AreFunctionsOf unit.now functions.items }
    ensures { TellsOfAnyFile (unit_tree unit.now) (faults.Cycle functions) result }
{
    match names_of(alloc, unit, &functions) {
        Ok(names) => Status::Proof(ProofFault::Cycle(names)),
        Err(_) => Status::NoMemory,
    }
}

/// The status of proofs that can't be certified, or whose calls can't be counted.
#[tactic(auto, using(crate::proofs::ToldLaws::known_function))]
pub fn proofs_told(
    alloc: Global,
    unit: &CoreUnit,
    file: Option<&[u8]>,
    fault: CertifyFault,
) -> Status
    requires short { IsShort (text_of file) }
    requires functions { ToldOfFunctions (unit_tree unit.now) fault }
    ensures { TellsFault (unit_tree unit.now) (text_of file.entry) fault result }
{
    match fault {
        CertifyFault::NoMemory => Status::NoMemory,
        CertifyFault::Text(fault) => file_told(file, fault),
        CertifyFault::Cycle(functions) => cycle_told(alloc, unit, functions),
        CertifyFault::Order(name) => Status::Proof(ProofFault::Order(name)),
        CertifyFault::Entry(f, fault) => entry_told(alloc, unit, f, fault),
    }
}
