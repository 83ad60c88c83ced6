// The immediates of words.
ghost use Rattle.std.specs.Prelude.{◌≡◌, ◌<◌, true};
ghost use Rattle.qs_emit_selection.specs.Pieces as spec;

use qs_isa::{Immediate, UpperImmediate};

/// Whether an immediate of 12 bits is the word: -2048 to 2047.
#[tactic(auto, unfolding(crate::specs::Pieces::is_small))]
pub fn is_small(word: u32) -> bool
    ensures { result ≡ spec.is_small word }
{
    word < 2048 || 0xffff_f800 <= word
}

/// The immediate of a word that is small.
#[tactic(auto, using(crate::proofs::Ranges::small_signed))]
pub fn small(word: u32) -> Immediate
    requires { spec.is_small word ≡ true }
    ensures { result ≡ word }
{
    Immediate::new(word)
}

/// Whether an offset is in the reach of an immediate.
#[tactic(auto, unfolding(crate::specs::Pieces::is_near))]
pub fn is_near(offset: u32) -> bool
    ensures { result ≡ spec.is_near offset }
{
    offset < 2048
}

/// The immediate of a number below 2048.
#[tactic(auto, using(crate::proofs::Ranges::below_signed))]
pub fn below(n: u32) -> Immediate
    requires { n < 2048 }
    ensures { result ≡ n }
{
    Immediate::new(n)
}

/// The immediate of an offset in its reach.
#[tactic(auto, using(crate::proofs::Ranges::near_signed))]
pub fn near(offset: u32) -> Immediate
    requires { spec.is_near offset ≡ true }
    ensures { result ≡ offset }
{
    Immediate::new(offset)
}

#[tactic(auto, unfolding(crate::specs::Pieces::low_part))]
fn low_word(word: u32) -> u32
    ensures { result ≡ spec.low_part word }
{
    let bits = word % (1 << 12);
    if bits < 2048 {
        bits
    } else {
        0xffff_f000 + bits
    }
}

/// The low part of a word.
#[tactic(auto, using(crate::proofs::Ranges::low_signed))]
pub fn low(word: u32) -> Immediate
    ensures { result ≡ spec.low_part word }
{
    Immediate::new(low_word(word))
}

#[tactic(auto, unfolding(crate::specs::Pieces::high_part))]
fn high_word(word: u32) -> u32
    ensures { result ≡ spec.high_part word }
{
    word.wrapping_add(2048) / (1 << 12) * (1 << 12)
}

/// The high part of a word, to which its low part is added.
#[tactic(auto, using(crate::proofs::Ranges::high_upper))]
pub fn high(word: u32) -> UpperImmediate
    ensures { result ≡ spec.high_part word }
{
    UpperImmediate::new(high_word(word))
}
