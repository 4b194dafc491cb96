//! How far a guess falls: a residual over a diagonal, in grains.
ghost use Rattle.std.specs.Prelude.{◌≡◌, ◌+◌, ◌*◌, ◌/◌, ◌^◌, ◌<◌, ◌≤◌, pos, ◌+ℤ◌, ◌*ℤ◌, ◌≤ℤ◌, ◌<ℤ◌, unsigned_abs};

/// The quotient, rounded down.
fn quotient(a: i128, d: u64) -> i128
    requires diagonal { 0 < d }
    requires most { d ≤ 2 ^ 40 }
    requires a { unsigned_abs a ≤ d * 2 ^ 86 }
    ensures below { (pos d *ℤ result) ≤ℤ a }
    ensures above { a <ℤ ((pos d *ℤ result) +ℤ pos d) }
    ensures small { unsigned_abs result ≤ 2 ^ 86 }
{
    a.div_euclid(d as i128)
}

/// A product with the diagonal.
fn times(d: u64, whole: i128) -> i128
    requires most { d ≤ 2 ^ 40 }
    requires small { unsigned_abs whole ≤ 2 ^ 86 }
    ensures value { result ≡ pos d *ℤ whole }
    ensures small { unsigned_abs result ≤ 2 ^ 126 }
{
    d as i128 * whole
}

/// 4096 times a number, and a part.
fn join(whole: i128, part: u64) -> i128
    requires small { unsigned_abs whole ≤ 2 ^ 86 }
    requires part { part ≤ 4096 }
    ensures value { result ≡ (pos 4096 *ℤ whole) +ℤ pos part }
    ensures small { unsigned_abs result ≤ 2 ^ 99 }
{
    4096 * whole + part as i128
}

/// What is left of `a` above `d * whole`.
fn rest_above(a: i128, whole: i128, d: u64) -> u64
    requires most { d ≤ 2 ^ 40 }
    requires small { unsigned_abs whole ≤ 2 ^ 86 }
    requires below { (pos d *ℤ whole) ≤ℤ a }
    requires above { a <ℤ ((pos d *ℤ whole) +ℤ pos d) }
    ensures value { a ≡ (pos d *ℤ whole) +ℤ pos result }
    ensures less { result < d }
{
    (a - times(d, whole)) as u64
}

/// `4096 * low / d`, rounded down, with no product that could leave the type.
pub(crate) fn fall(low: i128, d: u64) -> i128
    requires diagonal { 0 < d }
    requires most { d ≤ 2 ^ 40 }
    requires low { unsigned_abs low ≤ d * 2 ^ 86 }
    ensures below { (pos d *ℤ result) ≤ℤ (pos 4096 *ℤ low) }
    ensures above { (pos 4096 *ℤ low) <ℤ ((pos d *ℤ result) +ℤ pos d) }
    ensures small { unsigned_abs result ≤ 2 ^ 99 }
{
    let whole = quotient(low, d);
    let rest = rest_above(low, whole, d);
    join(whole, 4096 * rest / d)
}
