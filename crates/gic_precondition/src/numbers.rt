//! Numbers cut to 56 bits, and their products.
ghost use Rattle.std.specs.Prelude.{◌*◌, ◌^◌, ◌≤◌, ◌<◌, unsigned_abs};

/// A number cut to 56 bits.
#[inline(always)]
pub(crate) fn cut(number: i128) -> i64
    ensures { unsigned_abs result ≤ 2 ^ 56 }
{
    number.min(1 << 56).max(-(1 << 56)) as i64
}

/// A product of two numbers.
#[inline(always)]
pub(crate) fn product(a: i64, b: i64) -> i128
    ensures { unsigned_abs result ≤ 2 ^ 126 }
{
    a as i128 * b as i128
}

/// How many bits a number has.
pub(crate) fn bits_of(number: u128) -> u32
    ensures { result ≤ 128 }
{
    128u32.saturating_sub(number.leading_zeros())
}

/// A current's part, in units of 2^-32.
#[inline(always)]
pub(crate) fn part_of(current: i64, share: u32) -> i64
    ensures { unsigned_abs result ≤ 2 ^ 56 }
{
    cut(product(current, share as i64) >> 32)
}
