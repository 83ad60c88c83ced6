// The registers.
ghost use Rattle.std.specs.Prelude.{◌≡◌, ℕ, ◌<◌};

use std::marker::Model;

/// A register, x0 to x31, seen as its number (section 2.1).
#[derive(Clone, Copy, Debug, PartialEq, Eq)]
pub struct Register {
    number: u8,
}

impl Model for Register {
    ghost Value = { ℕ };

    ghost view = { λ r. r.number };

    ghost invariant = { λ r. r.number < 32 };

    ghost inverse = { λ n. record { number = n } };
}

impl Register {
    /// x0, which always reads 0.
    pub const ZERO: Register = Register { number: 0 };

    /// x1, the return address.
    pub const RA: Register = Register { number: 1 };

    /// x2, the stack pointer.
    pub const SP: Register = Register { number: 2 };

    /// x5, a temporary, which calls don't keep.
    pub const T0: Register = Register { number: 5 };

    /// x10, the first argument and the result.
    pub const A0: Register = Register { number: 10 };

    /// x11, the second argument.
    pub const A1: Register = Register { number: 11 };

    /// x12, the third argument.
    pub const A2: Register = Register { number: 12 };

    /// x13, the fourth argument.
    pub const A3: Register = Register { number: 13 };

    /// x14, the fifth argument.
    pub const A4: Register = Register { number: 14 };

    /// x15, the sixth argument.
    pub const A5: Register = Register { number: 15 };

    /// x16, the seventh argument.
    pub const A6: Register = Register { number: 16 };

    /// x17, the last argument, which names a call of the environment.
    pub const A7: Register = Register { number: 17 };

    /// The register of this number, below 32.
    pub fn new(number: u8) -> Register
        requires { number < 32 }
        ensures { result ≡ number }
    {
        Register { number }
    }

    /// The number, 0 to 31.
    pub fn number(self) -> u8
        ensures value { result ≡ self }
        ensures range { self < 32 }
    {
        self.number
    }
}
