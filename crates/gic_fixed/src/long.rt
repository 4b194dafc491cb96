//! Long division by a number of at most 32 bits, in two digits of 64 bits.
ghost use Rattle.std.specs.Prelude.{◌≡◌, ℕ, ◌+◌, ◌*◌, ◌/◌, ◌%◌, ◌^◌, ◌<◌, ◌≤◌, ◌≤ℤ◌, pos, negsuc};
ghost use Rattle.gic_fixed.specs.Rounding.{floor_div, ceil_div};

/// A number to divide by, and an estimate of 2^64 over it, meant to be such that their product is 2^64 less the slack.
#[derive(Clone, Copy)]
pub struct Reciprocal {
    pub divisor: u64,
    pub estimate: u64,
    pub slack: u64,
}

/// One digit of a long quotient, and what is left.
#[derive(Clone, Copy)]
struct Digit {
    quotient: u64,
    rest: u64,
}

/// A digit as the reciprocal estimates it, which is not too much.
#[inline(always)]
fn estimated(number: u64, by: Reciprocal) -> Digit
    requires { by.estimate * by.divisor ≤ 2 ^ 64 }
    ensures parts { number ≡ result.quotient * by.divisor + result.rest }
    ensures guess { result.quotient ≡ number * by.estimate / 2 ^ 64 }
{
    let guess = ((number as u128 * by.estimate as u128) >> 64) as u64;
    Digit {
        quotient: guess,
        rest: number - guess * by.divisor,
    }
}

/// The same number by a quotient of one more.
#[inline(always)]
fn one_more(digit: Digit, divisor: u64) -> Digit
    requires some { 0 < divisor }
    requires space { divisor ≤ digit.rest }
    requires number { digit.quotient * divisor + digit.rest < 2 ^ 64 }
    ensures more { result.quotient ≡ digit.quotient + 1 }
    ensures less { result.rest + divisor ≡ digit.rest }
{
    Digit {
        quotient: digit.quotient + 1,
        rest: digit.rest - divisor,
    }
}

/// A digit, rounded down, of a number that is mostly far below 2^64: then it is mostly the estimate. With a divisor's own
/// reciprocal the third way is never taken; it keeps the other two apart, so that a processor guesses the first.
#[inline(always)]
fn next_digit(number: u64, by: Reciprocal) -> Digit
    requires some { 0 < by.divisor }
    requires below { by.estimate * by.divisor ≤ 2 ^ 64 }
    ensures parts { number ≡ result.quotient * by.divisor + result.rest }
    ensures less { result.rest < by.divisor }
{
    let digit = estimated(number, by);
    if digit.rest < by.divisor {
        digit
    } else if digit.rest - by.divisor < by.divisor {
        one_more(digit, by.divisor)
    } else {
        Digit {
            quotient: number / by.divisor,
            rest: number % by.divisor,
        }
    }
}

/// A digit, rounded down, of a number that may be near 2^64: the estimate or one more, since the slack is at most the
/// divisor. Which of the two can't be guessed, so there is no third way here.
#[inline(always)]
fn last_digit(number: u64, by: Reciprocal) -> Digit
    requires some { 0 < by.divisor }
    requires reciprocal { by.estimate * by.divisor + by.slack ≡ 2 ^ 64 }
    requires slack { by.slack ≤ by.divisor }
    ensures parts { number ≡ result.quotient * by.divisor + result.rest }
    ensures less { result.rest < by.divisor }
{
    let digit = estimated(number, by);
    if digit.rest < by.divisor {
        digit
    } else {
        one_more(digit, by.divisor)
    }
}

/// How many times the product of estimate and divisor is taken, and what is left.
#[derive(Clone, Copy)]
struct Taken {
    times: u64,
    rest: u64,
}

/// `times` times 2^64 and a number of 64 bits, as a number of products of estimate and divisor, and what is left: one product
/// for each 2^64, and for resistances of a case the slacks hardly ever make up one more.
#[inline(always)]
fn take_products(times: u64, low: u64, by: Reciprocal) -> Taken
    requires most { by.divisor < 2 ^ 32 }
    requires reciprocal { by.estimate * by.divisor + by.slack ≡ 2 ^ 64 }
    requires slack { by.slack ≤ by.divisor }
    requires times { times < by.divisor }
    ensures { times * 2 ^ 64 + low ≡ result.times * (by.estimate * by.divisor) + result.rest }
{
    let left = (times * by.slack) as u128 + low as u128;
    if left < 1 << 64 {
        Taken {
            times,
            rest: left as u64,
        }
    } else {
        Taken {
            times: times + 1,
            rest: (left - (1 << 64)) as u64 + by.slack,
        }
    }
}

/// A quotient rounded down, and what is left.
#[derive(Clone, Copy)]
struct Quotient {
    whole: u128,
    rest: u64,
}

/// A number below 2^127 divided digit by digit.
#[inline(always)]
fn divided(number: u128, by: Reciprocal) -> Quotient
    requires some { 0 < by.divisor }
    requires most { by.divisor < 2 ^ 32 }
    requires reciprocal { by.estimate * by.divisor + by.slack ≡ 2 ^ 64 }
    requires slack { by.slack ≤ by.divisor }
    requires number { number < 2 ^ 127 }
    ensures whole { result.whole ≡ number / by.divisor }
    ensures rest { result.rest ≡ number % by.divisor }
{
    let high = next_digit((number >> 64) as u64, by);
    let taken = take_products(high.rest, (number % (1 << 64)) as u64, by);
    let last = last_digit(taken.rest, by);
    Quotient {
        whole: ((high.quotient as u128) << 64)
            + (taken.times * by.estimate + last.quotient) as u128,
        rest: last.rest,
    }
}

/// How far a number is from 0, and one below 0 from -1. Where the highest bit is set, all bits are turned.
#[inline(always)]
fn depth(number: i128) -> u128
    ensures above { (n : ℕ) → number ≡ pos n → result ≡ n }
    ensures below { (n : ℕ) → number ≡ negsuc n → result ≡ n }
    ensures small { result < 2 ^ 127 }
{
    (number ^ (number >> 127)) as u128
}

/// The number on the other number's side that is so far from 0, or from -1 where the other is below 0.
#[inline(always)]
fn on_side_of(far: u128, other: i128) -> i128
    requires { far < 2 ^ 127 }
    ensures above { (n : ℕ) → other ≡ pos n → result ≡ pos far }
    ensures below { (n : ℕ) → other ≡ negsuc n → result ≡ negsuc far }
{
    far as i128 ^ (other >> 127)
}

/// What a division leaves of the depth of a number that is a multiple of the divisor: nothing, or the most that it can leave
/// where the number is below 0.
#[inline(always)]
fn rest_of_a_multiple(number: i128, divisor: u64) -> u64
    requires { 0 < divisor }
    ensures above { (n : ℕ) → number ≡ pos n → result ≡ 0 }
    ensures below { (n : ℕ) → number ≡ negsuc n → result + 1 ≡ divisor }
{
    if number < 0 { divisor - 1 } else { 0 }
}

/// A quotient rounded down, also below 0.
#[inline(always)]
pub fn floor_of(number: i128, by: Reciprocal) -> i128
    requires some { 0 < by.divisor }
    requires most { by.divisor < 2 ^ 32 }
    requires reciprocal { by.estimate * by.divisor + by.slack ≡ 2 ^ 64 }
    requires slack { by.slack ≤ by.divisor }
    ensures { result ≡ floor_div number (pos by.divisor) }
{
    on_side_of(divided(depth(number), by).whole, number)
}

/// A quotient rounded down, and rounded up.
#[derive(Clone, Copy)]
pub struct Ends {
    pub low: i128,
    pub high: i128,
}

/// A quotient rounded both ways, also below 0.
#[inline(always)]
pub fn ends_of(number: i128, by: Reciprocal) -> Ends
    requires some { 0 < by.divisor }
    requires most { by.divisor < 2 ^ 32 }
    requires reciprocal { by.estimate * by.divisor + by.slack ≡ 2 ^ 64 }
    requires slack { by.slack ≤ by.divisor }
    ensures low { result.low ≡ floor_div number (pos by.divisor) }
    ensures high { result.high ≡ ceil_div number (pos by.divisor) }
    ensures ordered { result.low ≤ℤ result.high }
{
    let parts = divided(depth(number), by);
    let low = on_side_of(parts.whole, number);
    let high = if parts.rest == rest_of_a_multiple(number, by.divisor) {
        low
    } else {
        low + 1
    };
    Ends { low, high }
}
