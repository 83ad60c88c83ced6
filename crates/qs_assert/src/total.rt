// Sums of many numbers of 128 bits, exactly.
ghost use Rattle.std.specs.Prelude.{◌≡◌, ◌^◌, ◌≤◌, ℤ, pos, negsuc, ◌+ℤ◌, ◌-ℤ◌, ◌≤ℤ◌};
ghost use Rattle.std.specs.Prelude.{FitsSigned};
ghost use Rattle.std.specs.Int.{w128};
ghost use Rattle.qs_assert.specs.Totals.{total_value, Within};
ghost use Rattle.qs_assert.specs.Stacks as stacks;

use crate::numbers::known;

/// `low`, and `carry` times 2^128.
#[derive(Clone, Copy)]
pub struct Total {
    pub low: i128,
    pub carry: i128,
}

impl Total {
    /// The total of no numbers.
    pub const ZERO: Total = Total { low: 0, carry: 0 };

    /// The total with one number more.
    pub fn plus(self, x: i128) -> Total
        requires { Within (2 ^ 120) self }
        ensures value { total_value result ≡ x +ℤ total_value self }
        ensures below { result.carry ≤ℤ (self.carry +ℤ pos 1) }
        ensures above { self.carry ≤ℤ (result.carry +ℤ pos 1) }
    {
        if x > 0 && self.low > i128::MAX - x {
            over(self, x)
        } else if x < 0 && self.low < i128::MIN - x {
            under(self, x)
        } else {
            within(self, x)
        }
    }

    /// The total with one number more, if there is one.
    pub fn with(self, part: Option<i128>) -> Total
        requires { Within (2 ^ 120) self }
        ensures value { total_value result ≡ stacks.joins ◌+ℤ◌ part (total_value self) }
        ensures below { result.carry ≤ℤ (self.carry +ℤ pos 1) }
        ensures above { self.carry ≤ℤ (result.carry +ℤ pos 1) }
    {
        match part {
            Some(x) => self.plus(x),
            None => self,
        }
    }

    /// The total, or None where it is wide.
    pub fn known(self) -> Option<i128>
        ensures { result ≡ stacks.known (total_value self) }
    {
        if self.carry == 0 {
            known(self.low)
        } else {
            None
        }
    }
}

fn wrap_down(a: i128, b: i128) -> i128
    requires { pos (2 ^ 127) ≤ℤ (a +ℤ b) }
    ensures { (result +ℤ pos (2 ^ 128)) ≡ a +ℤ b }
{
    (a + i128::MIN) + (b + i128::MIN)
}

fn wrap_up(a: i128, b: i128) -> i128
    requires { (a +ℤ b) ≤ℤ negsuc (2 ^ 127) }
    ensures { result ≡ (a +ℤ b) +ℤ pos (2 ^ 128) }
{
    (a - i128::MIN) + (b - i128::MIN)
}

fn add_small(carry: i128, by: i128) -> i128
    requires below { carry ≤ℤ pos (2 ^ 120) }
    requires above { negsuc (2 ^ 120) ≤ℤ carry }
    requires one { (by ≤ℤ pos 1) × (negsuc 0 ≤ℤ by) }
    ensures { result ≡ carry +ℤ by }
{
    carry + by
}

fn add(a: i128, b: i128) -> i128
    requires { FitsSigned w128 (a +ℤ b) }
    ensures { result ≡ a +ℤ b }
{
    a + b
}

fn within(total: Total, x: i128) -> Total
    requires { FitsSigned w128 (total.low +ℤ x) }
    ensures value { total_value result ≡ x +ℤ total_value total }
    ensures carry { result.carry ≡ total.carry }
{
    Total {
        low: add(total.low, x),
        carry: total.carry,
    }
}

fn over(total: Total, x: i128) -> Total
    requires small { Within (2 ^ 120) total }
    requires over { pos (2 ^ 127) ≤ℤ (total.low +ℤ x) }
    ensures value { total_value result ≡ x +ℤ total_value total }
    ensures carry { result.carry ≡ total.carry +ℤ pos 1 }
{
    Total {
        low: wrap_down(total.low, x),
        carry: add_small(total.carry, 1),
    }
}

fn under(total: Total, x: i128) -> Total
    requires small { Within (2 ^ 120) total }
    requires under { (total.low +ℤ x) ≤ℤ negsuc (2 ^ 127) }
    ensures value { total_value result ≡ x +ℤ total_value total }
    ensures carry { result.carry ≡ total.carry -ℤ pos 1 }
{
    Total {
        low: wrap_up(total.low, x),
        carry: add_small(total.carry, -1),
    }
}
