// The machine's operations on words.
ghost use Rattle.std.specs.Prelude.{◌≡◌};
ghost use Rattle.qs_base.specs.Words as words;

/// The sum modulo 2^32, as ADD (RISC-V Unprivileged ISA 20191213, section 2.4).
pub fn add32(a: u32, b: u32) -> u32
    ensures { result ≡ words.add a b }
{
    a.wrapping_add(b)
}

/// The difference modulo 2^32, as SUB (section 2.4).
pub fn sub32(a: u32, b: u32) -> u32
    ensures { result ≡ words.sub a b }
{
    a.wrapping_sub(b)
}

/// The lower 32 bits of the product, as MUL (section 7.1).
pub fn mul32(a: u32, b: u32) -> u32
    ensures { result ≡ words.mul a b }
{
    a.wrapping_mul(b)
}

/// The signed quotient rounded toward zero, as DIV (section 7.2): by 0 all ones, and INT_MIN by -1 INT_MIN.
pub fn divs32(a: u32, b: u32) -> u32
    ensures { result ≡ words.div a b }
{
    if b == 0 {
        u32::MAX
    } else {
        a.cast_signed()
            .wrapping_div(b.cast_signed())
            .cast_unsigned()
    }
}

/// The unsigned quotient, as DIVU (section 7.2): by 0 all ones.
pub fn divu32(a: u32, b: u32) -> u32
    ensures { result ≡ words.divu a b }
{
    if b == 0 { u32::MAX } else { a / b }
}

/// The signed remainder with the sign of `a`, as REM (section 7.2): by 0 `a`, and of INT_MIN by -1 0.
pub fn rems32(a: u32, b: u32) -> u32
    ensures { result ≡ words.rem a b }
{
    if b == 0 {
        a
    } else {
        a.cast_signed()
            .wrapping_rem(b.cast_signed())
            .cast_unsigned()
    }
}

/// The unsigned remainder, as REMU (section 7.2): by 0 `a`.
pub fn remu32(a: u32, b: u32) -> u32
    ensures { result ≡ words.remu a b }
{
    if b == 0 { a } else { a % b }
}

/// `a` shifted left by the low five bits of `b`, as SLL (section 2.4).
pub fn sll32(a: u32, b: u32) -> u32
    ensures { result ≡ words.sll a b }
{
    a.wrapping_shl(b)
}

/// `a` shifted right by the low five bits of `b`, zeros coming in, as SRL (section 2.4).
pub fn srl32(a: u32, b: u32) -> u32
    ensures { result ≡ words.srl a b }
{
    a.wrapping_shr(b)
}

/// `a` shifted right by the low five bits of `b`, copies of its sign coming in, as SRA (section 2.4).
pub fn sra32(a: u32, b: u32) -> u32
    ensures { result ≡ words.sra a b }
{
    a.cast_signed().wrapping_shr(b).cast_unsigned()
}
