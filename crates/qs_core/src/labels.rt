// The labels of switches.
ghost use Rattle.std.specs.Prelude.{◌≡◌};
ghost use Rattle.qs_core.specs.Statements as spec;

/// A label of a switch. It stands before the part with the number.
#[derive(Clone, Copy)]
pub enum CoreLabel {
    /// where the operand has the value, as its 32 bits
    Case { value: u32, part: u32 },
    /// where it has the value of no case
    Default { part: u32 },
}

/// The part before which the first `default` stands.
#[tactic(auto, using(crate::proofs::LabelLaws::default_at))]
pub fn default_part(labels: &[CoreLabel]) -> Option<u32>
    ensures { result ≡ spec.default_part labels.now }
{
    for label in labels {
        match label {
            CoreLabel::Case { .. } => {}
            CoreLabel::Default { part } => return Some(*part),
        }
    }
    None
}
