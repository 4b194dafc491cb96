//! Quotients rounded down or up.
ghost use Rattle.std.specs.Prelude.{◌≡◌, pos, ◌<ℤ◌};
ghost use Rattle.gic_fixed.specs.Rounding.{floor_div, ceil_div};

/// `a / d`, rounded down.
pub(crate) fn div_floor(a: i128, d: i128) -> i128
    requires positive { pos 0 <ℤ d }
    ensures { result ≡ floor_div a d }
{
    a.div_euclid(d)
}

/// `a / d`, rounded up.
pub(crate) fn div_ceil(a: i128, d: i128) -> i128
    requires positive { pos 0 <ℤ d }
    ensures { result ≡ ceil_div a d }
{
    let down = a.div_euclid(d);
    if a.rem_euclid(d) == 0 { down } else { down + 1 }
}
