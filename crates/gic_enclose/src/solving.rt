//! Settled guesses and the certain potentials round them.
ghost use Rattle.std.specs.Prelude.{◌+◌, ◌≤◌, slice_index};
ghost use Rattle.gic_model.specs.Voltages.{number_at};
ghost use Rattle.gic_model.specs.Guess.{IsSettled};
ghost use Rattle.gic_net.specs.Net.{standing};
ghost use Rattle.gic_enclose.specs.Drive.{CanEnclose};
ghost use Rattle.gic_enclose.specs.Certain.{AreTight};
ghost use Rattle.gic_enclose.specs.Together.{BelongTogether};
ghost use Rattle.gic_enclose.specs.Solved.{IsSolvedWithin};

use crate::enclosing::enclose_wide;
use crate::potentials::Potentials;
use crate::settling::settle_wide;
use gic_bound::BoundVector;
use gic_model::WideVolts;
use gic_net::Net;
use gic_sweep::{Solver, Steps};
use std::sync::ledger::Ledger;

/// The most ticks of a solve: 2^22, above all rounds and sweeps that it can need.
pub const MOST_TICKS: u32 = 1 << 22;

/// Makes the guesses settled, whatever they were before, and the potentials certain, as `enclose_wide` does, and sharp for
/// the width, which is at least 2. At most four rough corrections come first, then sweeps; each of both ticks once.
/// The voltages drive no potential far, and the vector is a bound vector of the net, within `MOST_WALK`; voltages, guesses, vector and potentials are
/// those of the net's elements and nodes.
pub fn solve_wide<L: Ledger>(
    net: &Net,
    volts: &WideVolts,
    bound: &BoundVector,
    width: u32,
    solver: &mut Solver,
    out: &mut Potentials,
    steps: &mut Steps<L>,
)
    requires together { BelongTogether net.now.network volts.now solver.old bound.now out.old }
    requires can { CanEnclose (standing net.now) (number_at volts.now) (slice_index bound.now) }
    requires width { 2 ≤ width }
    ensures settled { IsSettled (standing net.now) (number_at volts.now) (number_at solver.new) }
    ensures solved { IsSolvedWithin (standing net.now) (number_at volts.now) width out.new }
    ensures tight { AreTight out.new }
    ensures together { BelongTogether net.now.network volts.now solver.new bound.now out.new }
    ensures ticks { steps.new ≤ steps.old + MOST_TICKS }
{
    net.within_limits();
    settle_wide(net, volts, bound, solver, steps);
    enclose_wide(net, volts, solver, bound, out);
}
