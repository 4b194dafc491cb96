//! Ohm's law over intervals.
ghost use Rattle.std.specs.Prelude.{◌≡◌, ℕ, ◌*◌, ◌^◌, ◌<◌, ◌≤◌, ℤ, pos, ◌+ℤ◌, ◌-ℤ◌, ◌*ℤ◌, ◌≤ℤ◌, unsigned_abs};
ghost use Rattle.gic_fixed.specs.Encloses.{Encloses, IsWithin};
ghost use Rattle.gic_fixed.specs.Rounding.{floor_div, ceil_div};
ghost use Rattle.gic_model.specs.Guess.{most_guess};
ghost use Rattle.gic_model.specs.Limits.{most_volts};
ghost use Rattle.gic_effective.specs.Ohm.{OhmsLaw, drive_of, current_low, current_high, most_current};

use gic_fixed::{Divisor, Interval};
use gic_sweep::{GRAINS, drive, in_grains, micro_paths};

/// What drives an element's current, in grains, between two intervals of potentials in grains and by its voltage in
/// nanovolts.
pub(crate) fn drive_between(from: Interval, to: Interval, volts: i64) -> Interval
    requires from { IsWithin most_guess from.lo from.hi }
    requires to { IsWithin most_guess to.lo to.hi }
    requires volts { unsigned_abs volts ≤ most_volts }
    ensures low { result.lo ≡ drive_of from.lo to.hi volts }
    ensures high { result.hi ≡ drive_of from.hi to.lo volts }
    ensures holds { (p q : ℤ) (denominator : ℕ) →
        Encloses from.lo from.hi (pos (2 ^ 36) *ℤ p) denominator →
        Encloses to.lo to.hi (pos (2 ^ 36) *ℤ q) denominator →
        Encloses result.lo result.hi (pos (2 ^ 36) *ℤ (p -ℤ q +ℤ pos denominator *ℤ volts)) denominator }
    ensures small { IsWithin (2 ^ 98) result.lo result.hi }
{
    let push = in_grains(volts);
    Interval::new(drive(from.lo, to.hi, push), drive(from.hi, to.lo, push))
}

/// A million times the parallel paths.
fn factor(times: u8) -> i128
    requires { times ≤ 3 }
    ensures { result ≡ pos (times * 1000000) }
{
    micro_paths(times) as i128
}

/// The products with a factor that is not below 0.
fn raised(drive: Interval, factor: i128) -> Interval
    requires small { IsWithin (2 ^ 98) drive.lo drive.hi }
    requires factor { (pos 0 ≤ℤ factor) × (factor ≤ℤ pos 3000000) }
    ensures low { result.lo ≡ factor *ℤ drive.lo }
    ensures high { result.hi ≡ factor *ℤ drive.hi }
{
    drive.scale(factor)
}

/// The quotients by a resistance, rounded outward.
fn over_ohms(product: Interval, divisor: Divisor) -> Interval
    requires { 0 < divisor }
    ensures low { result.lo ≡ floor_div product.lo (pos divisor) }
    ensures high { result.hi ≡ ceil_div product.hi (pos divisor) }
{
    let low = divisor.floor(product.lo);
    let high = divisor.rounded(product.hi);
    Interval {
        lo: low,
        hi: high.hi,
    }
}

/// The current in nanoamperes, rounded outward, of an element with this many parallel paths of this resistance, by what
/// drives it in grains.
pub(crate) fn ohms_law(times: u8, divisor: Divisor, drive: Interval) -> Interval
    requires times { times ≤ 3 }
    requires resistance { 1000 ≤ divisor }
    requires drive { IsWithin (2 ^ 98) drive.lo drive.hi }
    ensures low { result.lo ≡ current_low times divisor drive.lo }
    ensures high { result.hi ≡ current_high times divisor drive.hi }
    ensures holds { (nanovolts current : ℤ) (denominator : ℕ) →
        Encloses drive.lo drive.hi (pos (2 ^ 36) *ℤ nanovolts) denominator →
        OhmsLaw times divisor nanovolts current →
        Encloses result.lo result.hi current denominator }
    ensures small { IsWithin most_current result.lo result.hi }
{
    let product = raised(drive, factor(times));
    over_ohms(product, divisor).div_out(GRAINS)
}
