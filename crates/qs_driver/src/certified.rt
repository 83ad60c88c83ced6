// A source and a proof file that a command reads: a unit with proofs that cover it, or why it is
// refused.
ghost use Rattle.std.specs.Prelude.{◌≡◌};
ghost use Rattle.qs_certify.specs.Given.{text_of, IsShort};
ghost use Rattle.qs_typing_findings.specs.TypedOf.{typed_tree};
ghost use Rattle.qs_driver_steps.specs.Runs.{TakesAll};
ghost use Rattle.qs_driver_session.specs.Names.{name_in};
ghost use Rattle.qs_driver.specs.Certified.{file_of, words_in, CertifiesTyped, ReadsAll, ReadsProof};
ghost use Rattle.qs_driver.specs.Proved.{proof_file, ReadsProved};

use qs_certify::{Certified, certify};
use qs_core::CoreUnit;
use qs_driver_proofs::proofs_told;
use qs_driver_session::{FileKind, PROOF_LIMIT, Status, read_file, read_unit};
use qs_elaborate::elaborate;
use qs_ports::Store;
use qs_typing_findings::TypedUnit;
use std::alloc::Global;

/// The words that name a source and its proof file.
#[derive(Clone, Copy)]
pub struct CertifyOrder<'a> {
    pub source: &'a str,
    pub proof: Option<&'a str>,
}

/// A source with proofs that cover it.
#[derive(Drop)]
pub struct CertifiedUnit {
    pub typed: TypedUnit,
    pub core: CoreUnit,
    pub certified: Certified,
}

// The text of the proof file, where one is named.
fn read_proof<S: Store>(
    alloc: Global,
    store: &mut S,
    proof: Option<&str>,
) -> Result<Option<Vec<u8>>, Status>
    ensures reads { ReadsProof (S.view store.old) (S.view store.new) (name_in proof.entry) result }
    ensures takes { TakesAll (proof_file (name_in proof.entry)) file_of (S.view store.old) (S.view store.new) result }
{
    match proof {
        Some(name) => {
            let text = read_file(alloc, store, name, FileKind::Derivation, PROOF_LIMIT)?;
            Ok(Some(text))
        }
        None => Ok(None),
    }
}

// The text that was read.
fn text_in(file: &Option<Vec<u8>>) -> Option<&[u8]>
    ensures { text_of result ≡ file_of file.now }
{
    file.as_ref().map(|text| text.as_slice())
}

/// The core of a typed unit, and proofs that cover it: those of the file, if there is one, and what
/// is added to them. Or the status at which its proofs are refused.
pub fn certify_typed(
    alloc: Global,
    typed: TypedUnit,
    file: Option<&[u8]>,
) -> Result<CertifiedUnit, Status>
    requires { IsShort (text_of file) }
    ensures { CertifiesTyped (typed_tree typed) (text_of file.entry) result }
{
    let core = elaborate(alloc, &typed)?;
    match certify(alloc, &core, file) {
        Ok(certified) => Ok(CertifiedUnit {
            typed,
            core,
            certified,
        }),
        Err(fault) => Err(proofs_told(alloc, &core, file, fault)),
    }
}

/// The unit of a source, and proofs that cover it: those of the proof file, where one is named, and
/// what is added to them. Or the status at which the source or its proofs are refused: the source
/// first, then the proof file.
pub fn read_certified<S: Store>(
    alloc: Global,
    store: &mut S,
    order: &CertifyOrder<'_>,
) -> Result<CertifiedUnit, Status>
    ensures reads { ReadsAll (words_in order.now) (S.view store.old) (S.view store.new) result }
    ensures proves { ReadsProved (words_in order.now) (S.view store.old) (S.view store.new) result }
{
    let typed = read_unit(alloc, store, order.source)?;
    let file = read_proof(alloc, store, order.proof)?;
    certify_typed(alloc, typed, text_in(&file))
}
