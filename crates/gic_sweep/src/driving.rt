//! What drives the current of an element, in grains of 2^-36 nanovolt.
ghost use Rattle.std.specs.Prelude.{◌≡◌, ◌+◌, ◌*◌, ◌^◌, ◌≤◌, pos, ◌+ℤ◌, ◌-ℤ◌, ◌*ℤ◌, unsigned_abs};
ghost use Rattle.gic_model.specs.Guess.{most_guess};
ghost use Rattle.gic_model.specs.Limits.{most_wide_volts};

/// Grains in a nanovolt.
pub const GRAINS: i128 = 1 << 36;

/// A voltage in nanovolts, in grains.
pub fn in_grains(nanovolts: i64) -> i128
    requires { unsigned_abs nanovolts ≤ most_wide_volts }
    ensures value { result ≡ pos (2 ^ 36) *ℤ nanovolts }
    ensures small { unsigned_abs result ≤ 2 ^ 94 }
{
    GRAINS * nanovolts as i128
}

/// What drives a current from one potential to another, with a voltage, all in grains.
pub fn drive(from: i128, to: i128, push: i128) -> i128
    requires from { unsigned_abs from ≤ most_guess }
    requires to { unsigned_abs to ≤ most_guess }
    requires push { unsigned_abs push ≤ 2 ^ 94 }
    ensures value { result ≡ from -ℤ to +ℤ push }
    ensures small { unsigned_abs result ≤ 2 ^ 97 + 2 ^ 94 }
{
    from - to + push
}

/// A million times the parallel paths: over a path's resistance in micro-ohms, the conductance in siemens.
pub fn micro_paths(times: u8) -> u32
    requires { times ≤ 3 }
    ensures { result ≡ times * 1000000 }
{
    times as u32 * 1_000_000
}
