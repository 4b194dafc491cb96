//! The columns of a certificate that is read row by row.
ghost use Rattle.std.specs.Prelude.{◌≡◌, ℕ, ◌<◌, ◌≤◌, length, map, slice_index, unsigned_abs, All, IfOk};
ghost use Rattle.gic_model.specs.Voltages.{number_at};
ghost use Rattle.gic_base.specs.declared.limits.TheConstants.{MOST_FIELD, MOST_WALK};
ghost use Rattle.gic_cert.specs.declared.limits.TheConstants.{MOST_WRITTEN_NODES};
ghost use Rattle.gic_cert.specs.Rows.{row_written, written_row_at, IsNodeRow};

use crate::cert::Cert;
use crate::reading::ReadCert;
use crate::rows::NodeRow;
use gic_base::{NodeId, OutOfMemory};
use gic_bound::BoundVector;
use std::alloc::Global;

fn entry_in(rows: &[NodeRow], place: usize) -> u16
    requires place { place < length rows.now }
    requires range { All IsNodeRow rows.now }
    ensures value { result ≡ (written_row_at rows.now place).entry }
    ensures range { result ≤ MOST_WALK }
{
    rows[place].entry
}

fn guess_in(rows: &[NodeRow], place: usize) -> i128
    requires { place < length rows.now }
    ensures { result ≡ (written_row_at rows.now place).guess }
{
    rows[place].guess
}

fn radius_in(rows: &[NodeRow], place: usize) -> u128
    requires { place < length rows.now }
    ensures { result ≡ (written_row_at rows.now place).radius }
{
    rows[place].radius
}

/// The rows' entries.
fn entries(alloc: Global, rows: &[NodeRow]) -> Result<BoundVector, OutOfMemory>
    requires few { length rows.now ≤ MOST_WRITTEN_NODES }
    requires range { All IsNodeRow rows.now }
    ensures count { IfOk result (λ vector. length vector ≡ length rows.now) }
    ensures each { IfOk result (λ vector. (k : ℕ) → k < length rows.now → slice_index vector k ≡ (written_row_at rows.now k).entry) }
{
    let nodes = rows.len() as u16;
    let mut vector = BoundVector::new(alloc, nodes)?;
    for node in 0..nodes {
        vector.set(NodeId(node), entry_in(rows, node as usize));
    }
    Ok(vector)
}

/// The rows' guesses.
fn guesses(alloc: Global, rows: &[NodeRow]) -> Result<Vec<i128>, OutOfMemory>
    ensures count { IfOk result (λ list. length list.items ≡ length rows.now) }
    ensures each { IfOk result (λ list. (k : ℕ) → k < length rows.now → number_at list.items k ≡ (written_row_at rows.now k).guess) }
{
    let mut list = vec![in alloc; 0; rows.len()]?;
    for place in 0..rows.len() {
        list[place] = guess_in(rows, place);
    }
    Ok(list)
}

/// The rows' radii.
fn radii(alloc: Global, rows: &[NodeRow]) -> Result<Vec<u128>, OutOfMemory>
    ensures count { IfOk result (λ list. length list.items ≡ length rows.now) }
    ensures each { IfOk result (λ list. (k : ℕ) → k < length rows.now → slice_index list.items k ≡ (written_row_at rows.now k).radius) }
{
    let mut list = vec![in alloc; 0; rows.len()]?;
    for place in 0..rows.len() {
        list[place] = radius_in(rows, place);
    }
    Ok(list)
}

/// The certificate that was read.
pub(crate) fn of_rows(alloc: Global, read: &ReadCert) -> Result<Cert, OutOfMemory>
    requires few { length read.now.rows.items ≤ MOST_WRITTEN_NODES }
    requires north { unsigned_abs read.now.field.north ≤ MOST_FIELD }
    requires east { unsigned_abs read.now.field.east ≤ MOST_FIELD }
    requires range { All IsNodeRow read.now.rows.items }
    ensures { IfOk result (λ cert. cert ≡ record { north = read.now.field.north; east = read.now.field.east; nodes = map row_written read.now.rows.items }) }
{
    let rows = read.rows.as_slice();
    let entries = entries(alloc, rows)?;
    let guesses = guesses(alloc, rows)?;
    let radii = radii(alloc, rows)?;
    Ok(Cert::from_columns(&read.field, entries, guesses, radii))
}
