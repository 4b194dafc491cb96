//! Square roots rounded down or up.
ghost use Rattle.std.specs.Prelude.{◌^◌, ◌<◌};
ghost use Rattle.gic_fixed.specs.Roots.{IsFloorRoot, IsCeilRoot};

/// The square root of `a`, which is below 2^126, rounded down: the greatest whole number whose square is not above it.
pub fn isqrt_floor(a: u128) -> u128
    requires { a < 2 ^ 126 }
    ensures { IsFloorRoot a result }
{
    a.isqrt()
}

/// The square root of `a`, which is below 2^126, rounded up: the least whole number whose square is not below it.
pub fn isqrt_ceil(a: u128) -> u128
    requires { a < 2 ^ 126 }
    ensures { IsCeilRoot a result }
{
    let down = a.isqrt();
    if down * down == a { down } else { down + 1 }
}
