//! Rows of intervals of quantities in base fields, and what any fields make of a row.
ghost use Rattle.std.specs.Prelude.{◌≡◌, ◌≤◌, ◌<◌, ◌⊎◌, length, All, Any, IsTrue, IsFalse};
ghost use Rattle.gic_base.specs.declared.limits.TheConstants.{MOST_ZONES};
ghost use Rattle.gic_fixed.specs.Ends.{ends_of};
ghost use Rattle.gic_superpose.specs.Superposed.{superposed};
ghost use Rattle.gic_superpose.specs.Pairs.{row_of, IsSmallPair};
ghost use Rattle.gic_superpose.specs.Compact.{IsCompact, IsBeyond};

use crate::compact::{is_compact, superpose_compact};
use crate::pairs::ZonePair;
use crate::superposing::superpose;
use gic_base::OutOfMemory;
use gic_fixed::Interval;
use gic_induce::Fields;
use std::alloc::Global;
use std::marker::Model;

/// Whether 64 bits serve for all of these pairs.
fn are_compact(pairs: &[ZonePair], zones: u16) -> bool
    requires { 0 < length pairs.now → 0 < zones }
    ensures yes { IsTrue result → All (IsCompact zones) pairs.now }
    ensures no { IsFalse result → Any (λ pair. IsBeyond zones (ends_of pair.north) ⊎ IsBeyond zones (ends_of pair.east)) pairs.now }
{
    for pair in pairs {
        if !is_compact(*pair, zones) {
            return false;
        }
    }
    true
}

/// The superposed interval of a row, in 64 bits or in 128.
#[inline(always)]
fn superpose_row(fields: &Fields, row: &[ZonePair], in_64_bits: bool) -> Interval
    requires few { length fields.now ≤ MOST_ZONES }
    requires row { length row.now ≡ length fields.now }
    requires small { All IsSmallPair row.now }
    requires compact { IsTrue in_64_bits → All (IsCompact (length fields.now)) row.now }
    ensures { ends_of result ≡ superposed fields.now (row_of row.now) }
{
    if in_64_bits {
        superpose_compact(fields, row)
    } else {
        // Taken apart, since `superpose` leaves it in memory: so what is computed in 64 bits stays in registers.
        let Interval { lo, hi } = superpose(fields, row);
        Interval { lo, hi }
    }
}

/// Rows of intervals in nanovolts or nanoamperes, one row for each quantity and in each row a pair for each zone. No
/// end is beyond 3000 times 2^62 either way.
#[derive(Drop)]
pub struct PairRows {
    places: u16,
    zones: u16,
    pairs: Vec<ZonePair>,
    in_64_bits: bool,
}

impl Model for PairRows {
    ghost use Rattle.std.specs.Prelude.{map};
    ghost use Rattle.gic_superpose.specs.Pairs.{zone_of};
    ghost use Rattle.gic_superpose.specs.Rows.{FlatRows, ArePairsOf};

    ghost Value = { FlatRows };

    ghost view = { λ r. record { places = r.places; zones = r.zones; pairs = map zone_of r.pairs.items } };

    ghost invariant = { λ r. ArePairsOf r.places r.zones r.pairs.items r.in_64_bits };
}

impl PairRows {
    ghost use Rattle.std.specs.Prelude.{◌≡◌, ◌≢◌, ◌≤◌, ◌<◌, ◌⊎◌, ℕ, length, IfOk};
    ghost use Rattle.gic_base.specs.declared.limits.TheConstants.{MOST_ZONES};
    ghost use Rattle.gic_fixed.specs.Encloses.{IsWithin};
    ghost use Rattle.gic_fixed.specs.Ends.{ends_of};
    ghost use Rattle.gic_superpose.specs.Superposed.{zone_at, superposed};
    ghost use Rattle.gic_superpose.specs.Pairs.{zone_of, most_superposed, IsSmallPair};
    ghost use Rattle.gic_superpose.specs.Rows.{row_at, AreRowsOf};

    /// A given number of rows of a given number of zones, at most 256.
    pub fn new(alloc: Global, places: u16, zones: u16) -> Result<PairRows, OutOfMemory>
        requires { zones ≤ MOST_ZONES }
        ensures { IfOk result (AreRowsOf places zones) }
    {
        let pair = ZonePair {
            north: Interval::point(0),
            east: Interval::point(0),
        };
        let pairs = vec![in alloc; pair; places as usize * zones as usize]?;
        Ok(PairRows {
            places,
            zones,
            pairs,
            in_64_bits: false,
        })
    }

    /// Changes the pair of a zone in the row at a place, and no other.
    pub fn set(&mut self, place: u16, zone: u16, pair: ZonePair)
        requires place { place < self.old.places }
        requires zone { zone < self.old.zones }
        requires small { IsSmallPair pair }
        ensures set { zone_at (row_at self.new place) zone ≡ zone_of pair }
        ensures others { (p z : ℕ) → z < self.old.zones → (p ≢ place) ⊎ (z ≢ zone) →
            zone_at (row_at self.new p) z ≡ zone_at (row_at self.old p) z }
        ensures shape { AreRowsOf self.old.places self.old.zones self.new }
    {
        self.pairs[place as usize * self.zones as usize + zone as usize] = pair;
        self.in_64_bits = false;
    }

    /// Chooses numbers of 64 bits for what is superposed from these rows, where these serve, and of 128 bits else.
    pub fn choose_numbers(&mut self)
        ensures { self.new ≡ self.old }
    {
        self.in_64_bits = are_compact(&self.pairs, self.zones);
    }

    /// The interval in millivolts or milliamperes that the fields of the zones make of the row at a place: the sum over
    /// the zones of what the field of each makes of its two intervals, a MOST_FIELD-th of it, rounded outward once. No end
    /// is beyond 2^63 - 1 either way.
    #[inline(always)]
    pub fn superposed(&self, fields: &Fields, place: u16) -> Interval
        requires fields { length fields.now ≡ self.now.zones }
        requires place { place < self.now.places }
        ensures value { ends_of result ≡ superposed fields.now (row_at self.now place) }
        ensures small { IsWithin most_superposed result.lo result.hi }
    {
        fields.within_limit();
        let from = place as usize * self.zones as usize;
        superpose_row(
            fields,
            &self.pairs[from..from + self.zones as usize],
            self.in_64_bits,
        )
    }
}
