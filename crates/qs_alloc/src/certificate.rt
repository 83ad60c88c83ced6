// Whether a certificate is closed: what is needed before an instruction is needed after each that
// can come before it.
ghost use Rattle.std.specs.Prelude.{◌≡◌, ◌<◌, length, map};
ghost use Rattle.std.specs.List.{list_all};
ghost use Rattle.qs_tac.specs.Liveness.{after};
ghost use Rattle.qs_tac.specs.Places.{lists};
ghost use Rattle.qs_tac.specs.TreeOf.{instruction_tree};
ghost use Rattle.qs_tac.specs.Uses.{reads};
ghost use Rattle.qs_alloc.specs.Verification as spec;

use qs_tac::Instruction;

/// Whether t stands in the list.
pub fn is_among(list: &[u32], t: u32) -> bool
    ensures { result ≡ spec.is_among list.now t }
{
    for u in list {
        if *u == t {
            return true;
        }
    }
    false
}

/// Whether t is what is written.
pub fn is_written(written: Option<u32>, t: u32) -> bool
    ensures { result ≡ spec.is_written written t }
{
    match written {
        None => false,
        Some(x) => x == t,
    }
}

fn are_reads_among(i: &Instruction, earlier: &[u32]) -> bool
    ensures { result ≡ list_all (spec.is_among earlier.now) (reads (instruction_tree i.now)) }
{
    for k in 0..i.read_limit() {
        if let Some(t) = i.read_at(k) {
            if !is_among(earlier, t) {
                return false;
            }
        }
    }
    true
}

fn is_rest_among(written: Option<u32>, later: &[u32], earlier: &[u32]) -> bool
    ensures { result ≡ list_all (spec.is_passed written earlier.now) later.now }
{
    for t in later {
        if !is_written(written, *t) && !is_among(earlier, *t) {
            return false;
        }
    }
    true
}

fn flows(i: &Instruction, later: &[u32], earlier: &[u32]) -> bool
    ensures { result ≡ spec.flows (instruction_tree i.now) later.now earlier.now }
{
    are_reads_among(i, earlier) && is_rest_among(i.written(), later, earlier)
}

/// What is needed after the instruction at this index.
pub fn list_at(needed: &[Vec<u32>], index: usize) -> &[u32]
    ensures { result.now ≡ after (lists needed.now) index }
{
    match needed.get(index) {
        None => &[],
        Some(list) => list.as_slice(),
    }
}

fn flows_from(code: &[Instruction], needed: &[Vec<u32>], next: usize, earlier: &[u32]) -> bool
    ensures { result ≡ spec.flows_from (map instruction_tree code.now) (lists needed.now) next earlier.now }
{
    match code.get(next) {
        None => true,
        Some(i) => flows(i, list_at(needed, next), earlier),
    }
}

fn flows_from_target(
    code: &[Instruction],
    needed: &[Vec<u32>],
    target: Option<u32>,
    earlier: &[u32],
) -> bool
    ensures { result ≡ spec.flows_from_target (map instruction_tree code.now) (lists needed.now) target earlier.now }
{
    match target {
        None => true,
        Some(q) => flows_from(code, needed, q as usize, earlier),
    }
}

/// Whether what is needed before each instruction that can come behind this one is needed after
/// this one.
pub fn flows_on(code: &[Instruction], needed: &[Vec<u32>], index: usize, i: &Instruction) -> bool
    requires { index < length code.now }
    ensures { result ≡ spec.flows_on (map instruction_tree code.now) (lists needed.now) index (instruction_tree i.now) }
{
    let earlier = list_at(needed, index);
    if i.goes_on() && !flows_from(code, needed, index + 1, earlier) {
        return false;
    }
    flows_from_target(code, needed, i.target(), earlier)
}
