// Numbers.
ghost use Rattle.std.specs.Prelude.{◌≡◌, ◌^◌, ◌≤◌, SomeIff, IfSome, true};
ghost use Rattle.qs_sexpr.specs.Numbers.{are_digits, magnitude, negated, negative, number_of};
ghost use Rattle.qs_sexpr.specs.Numbers.{positive, value_of};

use qs_base::is_digit;

/// 2^63.
const LEAST: u64 = 0x8000_0000_0000_0000;

fn are_digits(bytes: &[u8]) -> bool
    ensures { result ≡ are_digits bytes.now }
{
    bytes.iter().all(|byte| is_digit(*byte))
}

/// The value of these digits, where it is at most 2^63.
fn value_of(digits: &[u8]) -> Option<u64>
    requires { are_digits digits.now ≡ true }
    ensures { SomeIff result (value_of digits.now ≤ 2 ^ 63) (value_of digits.now) }
{
    let mut value: u64 = 0;
    for digit in digits {
        if value > 1_000_000_000_000_000_000 {
            return None;
        }
        value = value * 10 + (*digit).saturating_sub(b'0') as u64;
        if value > LEAST {
            return None;
        }
    }
    Some(value)
}

/// The value of one digit or more, where it is at most 2^63.
fn magnitude(bytes: &[u8]) -> Option<u64>
    ensures { result ≡ magnitude bytes.now }
{
    if bytes.is_empty() || !are_digits(bytes) {
        return None;
    }
    value_of(bytes)
}

fn positive(magnitude: Option<u64>) -> Option<i64>
    ensures { result ≡ positive magnitude }
{
    let value = magnitude?;
    if value < LEAST {
        Some(value as i64)
    } else {
        None
    }
}

fn negated(value: u64) -> i64
    requires { value ≤ 2 ^ 63 }
    ensures { result ≡ negated value }
{
    if value == 0 {
        0
    } else {
        -1 - (value - 1) as i64
    }
}

fn negative(magnitude: Option<u64>) -> Option<i64>
    requires { IfSome magnitude (λ value. value ≤ 2 ^ 63) }
    ensures { result ≡ negative magnitude }
{
    Some(negated(magnitude?))
}

/// The number that these bytes are.
pub fn number_of(atom: &[u8]) -> Option<i64>
    ensures { result ≡ number_of atom.now }
{
    match atom {
        [] => None,
        [first, others @ ..] => {
            if *first == b'-' {
                negative(magnitude(others))
            } else {
                positive(magnitude(atom))
            }
        }
    }
}
