//! Intervals that hold every solution, round any guesses.
ghost use Rattle.std.specs.Prelude.{◌≡◌, ℕ, ◌*◌, ◌^◌, ◌<◌, ◌≤◌, length, slice_index, pos, ◌-ℤ◌, ◌+ℤ◌, ◌*ℤ◌, ◌≤ℤ◌, unsigned_abs};
ghost use Rattle.gic_base.specs.declared.limits.TheConstants.{MOST_WALK};
ghost use Rattle.gic_fixed.specs.Encloses.{IsWithin};
ghost use Rattle.gic_model.specs.Standing.{IsLive};
ghost use Rattle.gic_model.specs.Voltages.{number_at};
ghost use Rattle.gic_model.specs.Guess.{most_guess, IsSettled, IsSettledWithin, cut};
ghost use Rattle.gic_net.specs.Net.{standing};
ghost use Rattle.gic_enclose.specs.Drive.{CanEnclose};
ghost use Rattle.gic_enclose.specs.Ends.{potential_ends, low_at, high_at};
ghost use Rattle.gic_fixed.specs.Ends.{ends_of};
ghost use Rattle.gic_enclose.specs.Together.{BelongTogether};
ghost use Rattle.gic_enclose.specs.Certain.{AreCertain, AreTight, IsNarrow};
ghost use Rattle.gic_enclose.specs.Round.{IsRoundGuess};

use crate::laws::drive_law;
use crate::potentials::Potentials;
use gic_base::NodeId;
use gic_bound::BoundVector;
use gic_fixed::Interval;
use gic_model::laws::certificate_law;
use gic_model::{WideVolts, cut_guess};
use gic_net::Net;
use gic_sweep::Solver;

/// How far a solution can lie from the guess at a node with this entry.
fn radius(entry: u16, reach: u128) -> i128
    requires entry { entry ≤ MOST_WALK }
    requires reach { reach ≤ 2 ^ 99 }
    ensures value { result ≡ pos (entry * reach) }
    ensures small { entry * reach ≤ 2 ^ 111 }
{
    (entry as u128 * reach) as i128
}

fn below(guess: i128, radius: i128) -> i128
    requires guess { unsigned_abs guess ≤ most_guess }
    requires radius { unsigned_abs radius ≤ 2 ^ 111 }
    ensures { result ≡ guess -ℤ radius }
{
    guess - radius
}

fn above(guess: i128, radius: i128) -> i128
    requires guess { unsigned_abs guess ≤ most_guess }
    requires radius { unsigned_abs radius ≤ 2 ^ 111 }
    ensures { result ≡ guess +ℤ radius }
{
    guess + radius
}

/// The interval round a guess. No solution is beyond the limit to which its ends are cut.
fn around(guess: i128, radius: i128) -> Interval
    requires guess { unsigned_abs guess ≤ most_guess }
    requires some { pos 0 ≤ℤ radius }
    requires most { radius ≤ℤ pos (2 ^ 111) }
    ensures low { result.lo ≡ cut (guess -ℤ radius) }
    ensures high { result.hi ≡ cut (guess +ℤ radius) }
{
    Interval::new(
        cut_guess(below(guess, radius)),
        cut_guess(above(guess, radius)),
    )
}

/// The interval at a node: round its guess, by the reach for each unit of its entry, and the point 0 at a dead node.
fn interval_at(
    net: &Net,
    solver: &Solver,
    bound: &BoundVector,
    reach: u128,
    node: NodeId,
) -> Interval
    requires nodes { length solver.now ≡ net.now.network.nodes }
    requires entries { length bound.now ≡ net.now.network.nodes }
    requires node { node.0 < net.now.network.nodes }
    requires entry { slice_index bound.now node.0 ≤ MOST_WALK }
    requires reach { reach ≤ 2 ^ 99 }
    ensures round { IsRoundGuess (standing net.now) (number_at solver.now) (slice_index bound.now) reach node.0 (ends_of result) }
    ensures small { IsWithin most_guess result.lo result.hi }
{
    if net.live(node) {
        around(solver.guess(node), radius(bound.entry(node), reach))
    } else {
        Interval::point(0)
    }
}

/// The certificate: makes the interval at each live node one that holds the node's potential in every solution,
/// whatever the guesses are, and that at each dead node the point 0. The voltages drive no potential far, and the vector is
/// a bound vector of the net within `MOST_WALK`; voltages, guesses, vector and potentials are those of the net's elements and nodes. The
/// nearer the guesses are to being settled, the narrower are the intervals.
pub fn enclose_wide(
    net: &Net,
    volts: &WideVolts,
    solver: &Solver,
    bound: &BoundVector,
    out: &mut Potentials,
)
    requires together { BelongTogether net.now.network volts.now solver.now bound.now out.old }
    requires can { CanEnclose (standing net.now) (number_at volts.now) (slice_index bound.now) }
    ensures certain { AreCertain (standing net.now) (number_at volts.now) out.new }

    // Where the guesses are settled within 2^29 grains, no interval is wider than 2^43 grains, which are 128 nanovolts.
    ensures narrow { IsSettledWithin (standing net.now) (number_at volts.now) (number_at solver.now) (2 ^ 29) → (k : ℕ) →
        IsNarrow (potential_ends out.new k) }

    // Where they are settled, none is wider than 2^32 grains, a sixteenth of a nanovolt.
    ensures tight { IsSettled (standing net.now) (number_at volts.now) (number_at solver.now) → AreTight out.new }

    // And where a guess is within 2^95 then, it is the middle of its interval.
    ensures middle { IsSettledWithin (standing net.now) (number_at volts.now) (number_at solver.now) (2 ^ 29) → (k : ℕ) →
        IsLive (standing net.now) k → unsigned_abs (number_at solver.now k) ≤ 2 ^ 95 →
        low_at out.new k +ℤ high_at out.new k ≡ pos 2 *ℤ number_at solver.now k }

    ensures same_length { length out.new ≡ length out.old }
{
    certificate_law();
    drive_law();
    net.within_limits();
    let reach = out.reach(net, volts, solver);
    for node in 0..net.nodes() {
        let node = NodeId(node);
        out.set(node, interval_at(net, solver, bound, reach, node));
    }
}
