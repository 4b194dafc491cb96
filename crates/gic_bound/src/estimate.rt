//! What a part of the row rule is near, without a division.
ghost use Rattle.std.specs.Prelude.{◌≡◌, ℕ, ◌+◌, ◌/◌, ◌^◌, ◌<◌, ◌≤◌, pos, ◌*ℤ◌, unsigned_abs};
ghost use Rattle.gic_fixed.specs.Rounding.{floor_div};
ghost use Rattle.gic_bound.specs.Estimates.{most_rise, IsNear, IsSmall};

/// A rough value of a number, and how far the number is off it at most, in units of 2^-20 siemens.
#[derive(Clone, Copy)]
pub struct Estimate {
    pub about: i64,
    pub off: u64,
}

impl Estimate {
    ghost use Rattle.std.specs.Prelude.{◌≡◌, ◌+◌, ◌^◌, pos, ◌+ℤ◌};
    ghost use Rattle.gic_bound.specs.Estimates.{IsSmall};

    /// 0, which is not off.
    pub fn nothing() -> Estimate
        ensures { result ≡ record { about = pos 0; off = 0 } }
    {
        Estimate { about: 0, off: 0 }
    }

    /// What the sum of two numbers is near, where the one is near this and the other near the other.
    pub fn add(self, other: Estimate) -> Estimate
        requires here { IsSmall (2 ^ 60) self }
        requires there { IsSmall (2 ^ 60) other }
        ensures { result ≡ record { about = self.about +ℤ other.about; off = self.off + other.off } }
    {
        Estimate {
            about: self.about + other.about,
            off: self.off + other.off,
        }
    }
}

/// A conductance times a rise.
fn product(conductance: u64, rise: i64) -> i64
    requires conductance { conductance ≤ 2 ^ 32 }
    requires rise { unsigned_abs rise ≤ most_rise }
    ensures value { result ≡ pos conductance *ℤ rise }
    ensures small { unsigned_abs result ≤ 2 ^ 45 }
{
    conductance as i64 * rise
}

/// What a rise carries through a conductance is near this, in units of 2^-20 siemens; `down` is the conductance in these
/// units, rounded down. It is off by the rise at most, since the conductance is off by less than 1.
pub fn carried_about(down: u64, rise: i64) -> Estimate
    requires down { down ≤ 2 ^ 32 }
    requires rise { unsigned_abs rise ≤ most_rise }
    ensures carried { (n r : ℕ) → 0 < r → down ≡ n / r → IsNear result (floor_div (pos n *ℤ rise) (pos r)) }
    ensures off { result.off ≡ unsigned_abs rise }
    ensures small { unsigned_abs result.about ≤ 2 ^ 45 }
{
    Estimate {
        about: product(down, rise),
        off: rise.unsigned_abs(),
    }
}
