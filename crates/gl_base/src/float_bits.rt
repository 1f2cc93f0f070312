//! Floats as they stand in words.
ghost use Rattle.std.specs.Prelude.{◌≡◌, ◌≢◌, ◌≤◌, ◌<◌, ◌*◌, ◌^◌};
ghost use Rattle.gl_base.specs.Floats as floats;

use crate::enums::{INFINITY, NEGATIVE_ZERO, ONE};

/// The bits of a float behind the first one, which is not written.
const FRACTION_BITS: u32 = 23;

/// What is added to an exponent.
const BIAS: u32 = 127;

/// A 32-bit float, by its pattern of bits (IEEE 754, binary32).
#[derive(Clone, Copy, Debug, PartialEq, Eq)]
pub struct FloatBits(pub u32);

/// The greatest power of two in a number, by its exponent.
fn exponent_of(n: u32) -> u32
    requires { n ≢ 0 }
    ensures value { result ≡ floats.exponent_of n }
    ensures above { n < 2 * 2 ^ result }
    ensures bound { result < 32 }
{
    n.ilog2()
}

/// The nearest whole number to a quotient, and of two that are as near the even one.
#[tactic(auto, using(crate::proofs::Exponents::nearest_small))]
fn nearest(a: u64, b: u64) -> u64
    requires some { 0 < b }
    requires few { b < 2 ^ 32 }
    requires near { a < b * 2 ^ 24 }
    ensures value { result ≡ floats.nearest a b }
    ensures bound { result ≤ 2 ^ 24 }
{
    let whole = a / b;
    let rest = a % b;
    if 2 * rest < b {
        whole
    } else if 2 * rest > b {
        whole + 1
    } else {
        whole + whole % 2
    }
}

/// A number, less its greatest power of two, in units of the last bit of a float, with the first bit of that float.
fn fraction_of(n: u32, exponent: u32) -> u32
    requires exponent { exponent < 32 }
    requires above { n < 2 * 2 ^ exponent }
    ensures value { result ≡ floats.nearest (n * 2 ^ 23) (2 ^ exponent) }
    ensures bound { result ≤ 2 ^ 24 }
{
    nearest((n as u64) << FRACTION_BITS, 1 << exponent) as u32
}

/// The pattern of the float that is nearest to a number.
fn natural_pattern(n: u32) -> u32
    requires { n ≤ 2 ^ 31 }
    ensures value { result ≡ floats.natural_pattern n }
    ensures positive { result < 2 ^ 31 }
{
    if n == 0 {
        return 0;
    }
    let exponent = exponent_of(n);
    ((exponent + (BIAS - 1)) << FRACTION_BITS) + fraction_of(n, exponent)
}

impl FloatBits {
    /// The float that is nearest to a whole number, and of two that are as near the one whose last bit is 0 (section 6.1.2).
    pub fn from_int(n: i32) -> FloatBits
        ensures { result ≡ floats.from_int n }
    {
        let pattern = natural_pattern(n.unsigned_abs());
        if n < 0 {
            FloatBits(NEGATIVE_ZERO + pattern)
        } else {
            FloatBits(pattern)
        }
    }

    /// The nearest float from 0 to 1: 0 for a negative one and for what is not a number, and 1 for one above 1 (sections 4.1.6 and 4.2.3).
    pub fn clamp01(self) -> FloatBits
        ensures { result ≡ floats.clamped self }
    {
        if self.0 > INFINITY {
            FloatBits(0)
        } else if self.0 > ONE {
            FloatBits(ONE)
        } else {
            self
        }
    }

    /// Whether it is 0, negative, or not a number, as the width of a line must not be (section 3.4).
    pub fn is_negative_or_zero(self) -> bool
        ensures { result ≡ floats.is_negative_or_zero self }
    {
        self.0 == 0 || self.0 > INFINITY
    }
}
