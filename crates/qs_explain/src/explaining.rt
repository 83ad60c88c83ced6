// The top call: reads a source and a proof file, and explains a certificate.
ghost use Rattle.std.specs.Prelude.{◌<◌, ◌^◌, IfOk, length};
ghost use Rattle.qs_core.specs.UnitTrees.{unit_tree};
ghost use Rattle.qs_explain.specs.Explaining.{Agrees};

use crate::certificates::known_at_root;
use crate::goals::{Goal, Owner, goals_of};
use crate::page::Page;
use crate::words::{Asked, Order, Place, order_of};
use qs_analyse::fill;
use qs_base::FnId;
use qs_certify::{CertifyFault, certify, given_proofs};
use qs_core::CoreUnit;
use qs_driver_session::{
    Devices, FileKind, FileNames, PROOF_LIMIT, Status, nameless, read_file, read_unit, refuse,
};
use qs_elaborate::elaborate;
use qs_entail::{CertFault, Stop, check};
use qs_ports::{Sink, Store, put_all};
use qs_prooftext_meaning::{find_function, words_of};
use qs_prooftext_writing::WordTable;
use qs_triples::{DerivFault, Proofs, Resource, Scope, entry_in};
use std::alloc::Global;

// The statuses that aren't taken from a status of the tool, but are as its are.
const ACCEPTED: u8 = 0;

const REFUSED: u8 = 2;

const WORDS: u8 = 3;

const SINK_FAILED: u8 = 11;

const USAGE: &[u8] = b"usage: explain SRC DRV [FUNCTION [entry|PATH [CPATH]]]\n";

const NOWHERE: &[u8] = b"no such function, or no such certificate\n";

/// What is found of a proof file.
#[derive(Drop)]
struct Verdict {
    status: u8,
    // The function and the place of the certificate that is refused first, if one is.
    refused: Option<(FnId, Place)>,
}

fn node_of(fault: CertFault) -> Option<Vec<usize>> {
    match fault {
        CertFault::NoMemory => None,
        CertFault::Step(node, _) => Some(node),
        CertFault::Limit(node, _) => Some(node),
    }
}

// The place of the certificate that is refused, if one is.
fn refused_place(fault: DerivFault) -> Option<Place> {
    let (statement, fault) = match fault {
        DerivFault::Cert(path, fault) => (Some(path), fault),
        DerivFault::Entry(fault) => (None, fault),
        _ => return None,
    };
    let node = node_of(fault)?;
    Some(Place { statement, node })
}

// The function and the place of the certificate that is refused, if one is.
fn refused_in(fault: CertifyFault) -> Option<(FnId, Place)> {
    match fault {
        CertifyFault::Entry(f, fault) => Some((f, refused_place(fault)?)),
        _ => None,
    }
}

// What the check says of the file.
fn verdict_of(alloc: Global, unit: &CoreUnit, file: &[u8]) -> Result<Verdict, Stop>
    requires { length file.now < 2 ^ 31 }
    ensures { IfOk result (λ verdict. Agrees (unit_tree unit.now) file.now verdict.status) }
{
    match certify(alloc, unit, Some(file)) {
        Ok(_) => Ok(Verdict {
            status: ACCEPTED,
            refused: None,
        }),
        Err(CertifyFault::NoMemory) => Err(Stop::NoMemory),
        Err(fault) => Ok(Verdict {
            status: REFUSED,
            refused: refused_in(fault),
        }),
    }
}

// The proofs of the file and what is added to them, whether all are right or not.
fn all_proofs(alloc: Global, unit: &CoreUnit, file: &[u8]) -> Result<Proofs, Stop>
    requires { length file.now < 2 ^ 31 }
{
    match given_proofs(alloc, unit, Some(file)) {
        Ok(given) => fill(alloc, unit, given).map_err(|_fault| Stop::Breaks),
        Err(_) => Err(Stop::Breaks),
    }
}

fn is_refused(page: &Page<'_>, goal: &Goal<'_>) -> bool {
    check(
        page.alloc,
        &[],
        page.defines,
        &goal.there,
        &goal.needed,
        goal.certificate,
    )
    .is_err()
}

// Puts a node of the certificate of a goal.
fn put_goal(page: &mut Page<'_>, goal: &Goal<'_>, node: &[usize]) -> Result<(), Stop> {
    let mut known = known_at_root(page.alloc)?;
    let (p, q) = (goal.there.view(), goal.needed.view());
    page.owner = goal.owner;
    page.show(&mut known, goal.certificate, &p, &q, node)
}

// Puts the node of the first certificate that is refused.
fn put_refused(page: &mut Page<'_>, goals: &[Goal<'_>], node: &[usize]) -> Result<(), Stop> {
    for goal in goals {
        if is_refused(page, goal) {
            return put_goal(page, goal, node);
        }
    }
    Ok(())
}

// Puts the node of all certificates that have it.
fn put_asked(page: &mut Page<'_>, goals: &[Goal<'_>], node: &[usize]) -> Result<(), Stop> {
    let mut is_there = false;
    for goal in goals {
        match put_goal(page, goal, node) {
            Ok(()) => is_there = true,
            Err(Stop::Breaks) => {}
            Err(stop) => return Err(stop),
        }
    }
    if is_there { Ok(()) } else { Err(Stop::Breaks) }
}

// Puts what is asked of the certificates at a place, or of the first of them that is refused.
fn put_place(
    page: &mut Page<'_>,
    scope: Scope<'_>,
    place: &Place,
    is_asked: bool,
) -> Result<(), Stop> {
    let entry = entry_in(scope.entries, page.function).ok_or(Stop::Breaks)?;
    let statement = place.statement.as_ref().map(|path| path.as_slice());
    let goals = goals_of(page.alloc, scope, entry, statement)?;
    if is_asked {
        put_asked(page, &goals, &place.node)
    } else {
        put_refused(page, &goals, &place.node)
    }
}

// The text that explains a place in the entry of a function.
fn explanation(
    alloc: Global,
    unit: &CoreUnit,
    file: &[u8],
    f: FnId,
    place: &Place,
    is_asked: bool,
) -> Result<Vec<u8>, Stop>
    requires { length file.now < 2 ^ 31 }
{
    let proofs = all_proofs(alloc, unit, file)?;
    let function = unit.functions.get(f.0 as usize).ok_or(Stop::Breaks)?;
    let words = words_of(alloc, function)?;
    let scope = Scope {
        resource: Resource::Stack,
        function,
        functions: &unit.functions,
        entries: &proofs.functions,
        defines: &proofs.defines,
    };
    let mut page = Page {
        alloc,
        unit,
        function: f,
        table: WordTable {
            functions: &unit.functions,
            variables: &words,
        },
        defines: &proofs.defines,
        owner: Owner::Entry,
        text: Vec::new(alloc),
    };
    put_place(&mut page, scope, place, is_asked)?;
    Ok(page.text)
}

/// What a call writes, and its status.
#[derive(Drop)]
struct Ending {
    text: Vec<u8>,
    status: u8,
}

fn function_of(unit: &CoreUnit, name: &str) -> Result<FnId, Stop> {
    let f = find_function(&unit.functions, name.as_bytes())?;
    f.ok_or(Stop::Breaks)
}

// The place that is asked for; else that of the certificate that is refused first, if one is.
fn explained(
    alloc: Global,
    unit: &CoreUnit,
    file: &[u8],
    asked: Option<Asked<'_>>,
) -> Result<Ending, Stop>
    requires { length file.now < 2 ^ 31 }
    ensures { IfOk result (λ ending. Agrees (unit_tree unit.now) file.now ending.status) }
{
    let Verdict { status, refused } = verdict_of(alloc, unit, file)?;
    let is_asked = asked.is_some();
    let shown = match asked {
        Some(asked) => Some((function_of(unit, asked.function)?, asked.place)),
        None => refused,
    };
    let text = match shown {
        Some((f, place)) => explanation(alloc, unit, file, f, &place, is_asked)?,
        None => Vec::new(alloc),
    };
    Ok(Ending { text, status })
}

// The end of a call that writes no explanation: by want of memory, or as this line says.
fn ended<L: Sink>(log: &mut L, stop: Stop, line: &[u8]) -> u8 {
    match stop {
        Stop::NoMemory => refuse(log, &nameless(), Status::NoMemory).code(),
        _ => match put_all(log, line) {
            Ok(()) => WORDS,
            Err(_) => SINK_FAILED,
        },
    }
}

// The core of the source, and the text of the proof file.
fn read<S: Store>(
    alloc: Global,
    store: &mut S,
    order: &Order<'_>,
) -> Result<(CoreUnit, Vec<u8>), Status>
    ensures { IfOk result (λ both. length both.1.items < 2 ^ 31) }
{
    let typed = read_unit(alloc, store, order.source)?;
    let file = read_file(alloc, store, order.proof, FileKind::Derivation, PROOF_LIMIT)?;
    Ok((elaborate(alloc, &typed)?, file))
}

/// Explains the certificate that the words name, or else the first one that is refused. The status
/// is that with which `check` ends; where the words name no certificate, it is that of usage.
pub fn explain<S: Store, O: Sink, L: Sink>(
    alloc: Global,
    words: &[String],
    devices: Devices<'_, S, O, L>,
) -> u8 {
    let Devices { store, out, log } = devices;
    let order = match order_of(alloc, words) {
        Ok(order) => order,
        Err(stop) => return ended(log, stop, USAGE),
    };
    let none = nameless();
    let names = FileNames {
        source: order.source,
        derivation: order.proof,
        ..none
    };
    let (unit, file) = match read(alloc, store, &order) {
        Ok(both) => both,
        Err(status) => return refuse(log, &names, status).code(),
    };
    match explained(alloc, &unit, &file, order.asked) {
        Ok(ending) => match put_all(out, &ending.text) {
            Ok(()) => ending.status,
            Err(_) => SINK_FAILED,
        },
        Err(stop) => ended(log, stop, NOWHERE),
    }
}
