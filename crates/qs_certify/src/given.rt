// The proofs that a proof file gives.
ghost use Rattle.std.specs.Prelude.{◌≡◌, ◌<◌, ◌^◌, IfErr, length, Some};
ghost use Rattle.qs_core.specs.UnitTrees.{unit_tree};
ghost use Rattle.qs_prooftext_meaning.specs.Reading.{Reading};
ghost use Rattle.qs_analyse.specs.Fillable.{IfProofs, IsFillable};
ghost use Rattle.qs_certify.specs.Given.{GivenIs, IsShort, text_of, text_told};
ghost use Rattle.qs_certify.specs.Certification.{IsTextFault};

use crate::fault::CertifyFault;
use qs_core::CoreUnit;
use qs_prooftext::read;
use qs_prooftext_meaning::TextFault;
use qs_triples::Proofs;
use std::alloc::Global;

fn refused(fault: TextFault) -> CertifyFault
    ensures { result ≡ text_told fault }
{
    match fault {
        TextFault::NoMemory => CertifyFault::NoMemory,
        TextFault::BadByte(at) => CertifyFault::Text(TextFault::BadByte(at)),
        TextFault::Unbalanced(at) => CertifyFault::Text(TextFault::Unbalanced(at)),
        TextFault::UnknownForm(at) => CertifyFault::Text(TextFault::UnknownForm(at)),
        TextFault::BadNumber(at) => CertifyFault::Text(TextFault::BadNumber(at)),
        TextFault::TooDeep(at) => CertifyFault::Text(TextFault::TooDeep(at)),
        TextFault::Duplicate(at) => CertifyFault::Text(TextFault::Duplicate(at)),
        TextFault::NoSuchFunction(at) => CertifyFault::Text(TextFault::NoSuchFunction(at)),
    }
}

#[tactic(auto, using(crate::proofs::GivenLaws::given_text))]
fn given_in(alloc: Global, unit: &CoreUnit, text: &[u8]) -> Result<Proofs, CertifyFault>
    requires { length text.now < 2 ^ 31 }
    ensures reads { IfProofs result (Reading (unit_tree unit.now) text.now) }
    ensures fillable { IfProofs result (IsFillable (unit_tree unit.now)) }
    ensures fault { IfErr result (IsTextFault (unit_tree unit.now) (Some text.now)) }
{
    match read(alloc, text, unit) {
        Ok(given) => Ok(given),
        Err(fault) => Err(refused(fault)),
    }
}

/// The proofs that the file gives, or the first fault of its text. Without a file there are none.
#[tactic(auto, using(crate::proofs::GivenLaws::nothing_fillable))]
pub fn given_proofs(
    alloc: Global,
    unit: &CoreUnit,
    file: Option<&[u8]>,
) -> Result<Proofs, CertifyFault>
    requires { IsShort (text_of file) }
    ensures given { IfProofs result (GivenIs (unit_tree unit.now) (text_of file.entry)) }
    ensures fillable { IfProofs result (IsFillable (unit_tree unit.now)) }
    ensures fault { IfErr result (IsTextFault (unit_tree unit.now) (text_of file.entry)) }
{
    match file {
        Some(text) => given_in(alloc, unit, text),
        None => Ok(Proofs {
            defines: Vec::new(alloc),
            functions: Vec::new(alloc),
        }),
    }
}
