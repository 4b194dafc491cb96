//! The range of a resistance with a tolerance.
ghost use Rattle.std.specs.Prelude.{◌≡◌, ◌≤◌};
ghost use Rattle.gic_varied.specs.Ranges.{ground_range};

/// The least resistance of a case, in micro-ohm.
const LEAST_MICRO_OHM: u32 = 1_000;

/// The greatest.
const MOST_MICRO_OHM: u32 = 1_000_000_000;

/// The least resistance within a tolerance in per cent, rounded down, in micro-ohm, and never below 1000.
pub fn least_of(percent: u8, micro_ohm: u32) -> u32
    requires percent { percent ≤ 90 }
    ensures { result ≡ (ground_range percent micro_ohm).least }
{
    let least = u64::from(micro_ohm) * u64::from(100 - percent) / 100;
    LEAST_MICRO_OHM.max(least as u32)
}

/// The greatest resistance within a tolerance in per cent, rounded up, in micro-ohm, and never above 10^9.
pub fn most_of(percent: u8, micro_ohm: u32) -> u32
    requires percent { percent ≤ 90 }
    ensures { result ≡ (ground_range percent micro_ohm).most }
{
    let most = (u64::from(micro_ohm) * u64::from(100 + percent)).div_ceil(100);
    u64::from(MOST_MICRO_OHM).min(most) as u32
}
