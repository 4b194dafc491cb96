//! A written certificate.
ghost use Rattle.std.specs.Prelude.{◌≡◌, pos, ◌+ℤ◌, ◌-ℤ◌};
ghost use Rattle.gic_cert.specs.Rows.{IsNodeRow};

use crate::rows::{Field, NodeRow};
use gic_base::NodeId;
use gic_bound::BoundVector;
use gic_fixed::Interval;
use std::marker::Model;

/// A uniform field, and of each node three numbers, or nothing where the node is dead. The field's parts are in mV/km,
/// each within [`MOST_FIELD`] either way. The numbers are the entry of a bound vector, from 1 to [`MOST_WALK`], and in
/// grains of 2^-36 nanovolt a guess of the potential, within [`MOST_WRITTEN_GUESS`] either way, and a radius, from 0 to
/// [`MOST_WRITTEN_RADIUS`].
///
/// [`MOST_FIELD`]: gic_base::limits::MOST_FIELD
/// [`MOST_WALK`]: gic_base::limits::MOST_WALK
/// [`MOST_WRITTEN_GUESS`]: crate::limits::MOST_WRITTEN_GUESS
/// [`MOST_WRITTEN_RADIUS`]: crate::limits::MOST_WRITTEN_RADIUS
pub struct Cert {
    field: Field,
    /// Entries, guesses and radii by node, 0 each at dead nodes.
    entries: BoundVector,
    guesses: Vec<i128>,
    radii: Vec<u128>,
}

impl Model for Cert {
    ghost use Rattle.gic_cert.specs.Written.{Certificate};
    ghost use Rattle.gic_cert.specs.Columns.{written_rows, IsKept};

    ghost Value = { Certificate };

    ghost view = { λ c. record { north = c.field.north; east = c.field.east; nodes = written_rows c.entries c.guesses.items c.radii.items } };

    ghost invariant = { λ c. IsKept c.field.north c.field.east c.entries c.guesses.items c.radii.items };
}

impl Drop for Cert {
    /// Lets go of everything, in one step for whoever drops it.
    fn drop(self) {
        let Cert {
            field: _field,
            entries: _entries,
            guesses: _guesses,
            radii: _radii,
        } = self;
    }
}

impl Cert {
    ghost use Rattle.std.specs.Prelude.{◌≡◌, ◌<◌, ◌≤◌, length, slice_index};
    ghost use Rattle.gic_base.specs.declared.limits.TheConstants.{MOST_WALK};
    ghost use Rattle.gic_model.specs.Voltages.{number_at};
    ghost use Rattle.gic_view.specs.Kept.{optional_ends};
    ghost use Rattle.gic_sweep.specs.Guesses.{AreCut};
    ghost use Rattle.gic_cert.specs.Written.{IsWritten, written_at, entry_of, guess_of, radius_of, interval_of};
    ghost use Rattle.gic_cert.specs.Columns.{written_rows, IsKept};
    ghost use Rattle.gic_cert.specs.Rows.{row_written, IsNodeRow};

    /// The certificate with these columns.
    pub(crate) fn from_columns(
        field: &Field,
        entries: BoundVector,
        guesses: Vec<i128>,
        radii: Vec<u128>,
    ) -> Cert
        requires { IsKept field.now.north field.now.east entries guesses.items radii.items }
        ensures { result ≡ record { north = field.now.north; east = field.now.east; nodes = written_rows entries guesses.items radii.items } }
    {
        Cert {
            field: *field,
            entries,
            guesses,
            radii,
        }
    }

    /// The northward part of the field in mV/km. The answer also tells that all numbers are in their ranges.
    pub fn north(&self) -> i32
        ensures value { result ≡ self.now.north }
        ensures written { IsWritten self.now }
    {
        self.field.north
    }

    /// The eastward part of the field in mV/km.
    pub fn east(&self) -> i32
        ensures { result ≡ self.now.east }
    {
        self.field.east
    }

    /// The field.
    pub(crate) fn field(&self) -> &Field
        ensures north { result.now.north ≡ self.now.north }
        ensures east { result.now.east ≡ self.now.east }
    {
        &self.field
    }

    /// The numbers that a live node's potential lies between, in grains of 2^-36 nanovolt, where the certificate passes:
    /// the guess less the radius, and the guess and the radius. None at a dead node.
    pub fn interval(&self, node: NodeId) -> Option<Interval>
        requires { node.0 < length self.now.nodes }
        ensures { optional_ends result ≡ interval_of self.now node.0 }
    {
        let row = self.row(node);
        if row.entry == 0 {
            return None;
        }
        Some(around(&row))
    }

    /// All numbers are in their ranges. The call computes nothing: it brings this fact to where it stands.
    pub fn within_ranges(&self)
        ensures { IsWritten self.now }
    {
        let _ = &self.field;
    }

    /// How many nodes there are.
    pub(crate) fn count(&self) -> usize
        ensures { result ≡ length self.now.nodes }
    {
        self.guesses.len()
    }

    /// The entries, by their nodes.
    pub(crate) fn entries(&self) -> &BoundVector
        ensures value { slice_index result.now ≡ entry_of self.now }
        ensures count { length result.now ≡ length self.now.nodes }
    {
        &self.entries
    }

    /// The entry at a node, 0 where it is dead.
    pub(crate) fn entry(&self, node: NodeId) -> u16
        requires { node.0 < length self.now.nodes }
        ensures value { result ≡ entry_of self.now node.0 }
        ensures range { result ≤ MOST_WALK }
    {
        self.entries.entry(node)
    }

    /// The guesses, by their nodes.
    pub(crate) fn guesses(&self) -> &[i128]
        ensures value { number_at result.now ≡ guess_of self.now }
        ensures count { length result.now ≡ length self.now.nodes }
        ensures cut { AreCut (number_at result.now) }
    {
        self.guesses.as_slice()
    }

    /// The guess at a node, 0 where it is dead.
    fn guess(&self, node: NodeId) -> i128
        requires { node.0 < length self.now.nodes }
        ensures { result ≡ guess_of self.now node.0 }
    {
        self.guesses()[node.0 as usize]
    }

    /// The radius at a node, 0 where it is dead.
    pub(crate) fn radius(&self, node: NodeId) -> u128
        requires { node.0 < length self.now.nodes }
        ensures { result ≡ radius_of self.now node.0 }
    {
        self.radii[node.0 as usize]
    }

    /// What is written of a node.
    pub(crate) fn row(&self, node: NodeId) -> NodeRow
        requires { node.0 < length self.now.nodes }
        ensures value { row_written result ≡ written_at self.now node.0 }
        ensures range { IsNodeRow result }
    {
        self.within_ranges();
        NodeRow {
            entry: self.entry(node),
            guess: self.guess(node),
            radius: self.radius(node),
        }
    }
}

/// The numbers that are no further than the radius from the guess.
fn around(row: &NodeRow) -> Interval
    requires { IsNodeRow row.now }
    ensures low { result.lo ≡ row.now.guess -ℤ pos row.now.radius }
    ensures high { result.hi ≡ row.now.guess +ℤ pos row.now.radius }
{
    let radius = row.radius as i128;
    Interval::new(row.guess - radius, row.guess + radius)
}
