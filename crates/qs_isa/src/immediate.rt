// The immediates, each with the range of its layout (sections 2.2 and 2.3).
ghost use Rattle.std.specs.Prelude.{◌≡◌, ℕ, ◌<◌};
ghost use Rattle.qs_isa.specs.Ranges.{IsSigned, IsUpper, IsOffset};

use std::marker::Model;

/// A signed immediate of 12 bits, -2048 to 2047, seen as the word with its sign extended.
#[derive(Clone, Copy, Debug)]
pub struct Immediate {
    word: u32,
}

impl Model for Immediate {
    ghost Value = { ℕ };

    ghost view = { λ i. i.word };

    ghost invariant = { λ i. IsSigned 12 i.word };

    ghost inverse = { λ n. record { word = n } };
}

impl Immediate {
    /// The immediate of a word that is in range.
    pub fn new(word: u32) -> Immediate
        requires { IsSigned 12 word }
        ensures { result ≡ word }
    {
        Immediate { word }
    }

    /// The word with the sign extended.
    pub fn word(self) -> u32
        ensures value { result ≡ self }
        ensures range { IsSigned 12 self }
    {
        self.word
    }
}

/// An upper immediate: a word whose low 12 bits are 0.
#[derive(Clone, Copy, Debug)]
pub struct UpperImmediate {
    word: u32,
}

impl Model for UpperImmediate {
    ghost Value = { ℕ };

    ghost view = { λ i. i.word };

    ghost invariant = { λ i. IsUpper i.word };

    ghost inverse = { λ n. record { word = n } };
}

impl UpperImmediate {
    /// The immediate of a word whose low 12 bits are 0.
    pub fn new(word: u32) -> UpperImmediate
        requires { IsUpper word }
        ensures { result ≡ word }
    {
        UpperImmediate { word }
    }

    /// The word.
    pub fn word(self) -> u32
        ensures value { result ≡ self }
        ensures range { IsUpper self }
    {
        self.word
    }
}

/// The distance of a branch in bytes: even, -4096 to 4094, seen as the word with its sign extended.
#[derive(Clone, Copy, Debug)]
pub struct BranchOffset {
    word: u32,
}

impl Model for BranchOffset {
    ghost Value = { ℕ };

    ghost view = { λ i. i.word };

    ghost invariant = { λ i. IsOffset 13 i.word };

    ghost inverse = { λ n. record { word = n } };
}

impl BranchOffset {
    /// The offset of a word that is even and in range.
    pub fn new(word: u32) -> BranchOffset
        requires { IsOffset 13 word }
        ensures { result ≡ word }
    {
        BranchOffset { word }
    }

    /// The word with the sign extended.
    pub fn word(self) -> u32
        ensures value { result ≡ self }
        ensures range { IsOffset 13 self }
    {
        self.word
    }
}

/// The distance of a jump in bytes: even, -1048576 to 1048574, seen as the word with its sign
/// extended.
#[derive(Clone, Copy, Debug)]
pub struct JumpOffset {
    word: u32,
}

impl Model for JumpOffset {
    ghost Value = { ℕ };

    ghost view = { λ i. i.word };

    ghost invariant = { λ i. IsOffset 21 i.word };

    ghost inverse = { λ n. record { word = n } };
}

impl JumpOffset {
    /// The offset of a word that is even and in range.
    pub fn new(word: u32) -> JumpOffset
        requires { IsOffset 21 word }
        ensures { result ≡ word }
    {
        JumpOffset { word }
    }

    /// The word with the sign extended.
    pub fn word(self) -> u32
        ensures value { result ≡ self }
        ensures range { IsOffset 21 self }
    {
        self.word
    }
}

/// The amount of a shift, 0 to 31 bits.
#[derive(Clone, Copy, Debug)]
pub struct ShiftAmount {
    bits: u8,
}

impl Model for ShiftAmount {
    ghost Value = { ℕ };

    ghost view = { λ a. a.bits };

    ghost invariant = { λ a. a.bits < 32 };

    ghost inverse = { λ n. record { bits = n } };
}

impl ShiftAmount {
    /// A shift by this many bits, below 32.
    pub fn new(bits: u8) -> ShiftAmount
        requires { bits < 32 }
        ensures { result ≡ bits }
    {
        ShiftAmount { bits }
    }

    /// The number of bits, 0 to 31.
    pub fn bits(self) -> u8
        ensures value { result ≡ self }
        ensures range { self < 32 }
    {
        self.bits
    }
}
