//! What the factors make of currents.
ghost use Rattle.std.specs.Prelude.{ℕ, ◌≡◌, ◌+◌, ◌*◌, ◌^◌, ◌<◌, ◌≤◌, length, unsigned_abs};
ghost use Rattle.gic_precondition.specs.Inside.{AreStepsInside, AreEntriesInside};

use crate::numbers::{cut, part_of, product};
use crate::parts::{Entry, Step};
use crate::system::System;

/// The entries of a step.
#[inline(always)]
fn entries_of(entries: &[Entry], step: Step) -> &[Entry]
    ensures { (nodes : ℕ) → AreEntriesInside nodes entries.now → AreEntriesInside nodes result.now }
{
    let end = (step.end as usize).min(entries.len());
    let start = (step.start as usize).min(end);
    &entries[start..end]
}

/// Adds what the far ends have of a node's current. A sum that is too great goes round: a wrong proposal, and no fault.
#[inline(always)]
fn hand_on(entries: &[Entry], current: i64, currents: &mut [i64])
    requires { AreEntriesInside (length currents.old) entries.now }
{
    for entry in entries {
        let far = entry.far as usize;
        currents[far] = currents[far].wrapping_add(part_of(current, entry.share));
    }
}

/// The potential that a current alone makes at a node, times `2 ^ lift`.
#[inline(always)]
fn alone(current: i64, step: Step, lift: u32) -> i64
    ensures { unsigned_abs result ≤ 2 ^ 56 }
{
    let whole = product(current, step.inverse as i64);
    let bits = step.bits as u32;
    if lift <= bits {
        cut(whole >> (bits - lift))
    } else {
        cut(product(cut(whole), 1 << (lift - bits).min(60)))
    }
}

/// What a node has of the potentials at its far ends.
#[inline(always)]
fn handed_back(entries: &[Entry], potentials: &[i64]) -> i64
    requires { AreEntriesInside (length potentials.now) entries.now }
    ensures { unsigned_abs result ≤ 2 ^ 56 }
{
    let mut sum: i128 = 0;
    for entry in entries {
        sum = sum.wrapping_add(product(potentials[entry.far as usize], entry.share as i64));
    }
    cut(sum >> 32)
}

/// Hands on currents from each node to those that were left when it was eliminated.
fn hand_down(steps: &[Step], entries: &[Entry], currents: &mut [i64])
    requires steps { AreStepsInside (length currents.old) steps.now }
    requires entries { AreEntriesInside (length currents.old) entries.now }
{
    for step in steps {
        let current = currents[step.node as usize];
        hand_on(entries_of(entries, *step), current, currents);
    }
}

/// Makes potentials of the currents that were handed on, from the last node to the first.
fn hand_up(steps: &[Step], entries: &[Entry], lift: u32, values: &mut [i64])
    requires steps { AreStepsInside (length values.old) steps.now }
    requires entries { AreEntriesInside (length values.old) entries.now }
{
    for step in steps.iter().rev() {
        let node = step.node as usize;
        let potential = alone(values[node], *step, lift);
        let more = handed_back(entries_of(entries, *step), values);
        values[node] = potential + more;
    }
}

/// Makes of currents the potentials that the factors tell, times `2 ^ lift`.
pub(crate) fn precondition(system: &System, lift: u32, values: &mut [i64])
    requires { length values.old ≡ system.now }
    ensures { length values.new ≡ length values.old }
{
    hand_down(system.steps(), system.entries(), values);
    hand_up(system.steps(), system.entries(), lift, values);
}
