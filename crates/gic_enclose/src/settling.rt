//! Sweeps until the guesses are settled.
ghost use Rattle.std.specs.Prelude.{◌≡◌, ◌+◌, ◌*◌, ◌%◌, ◌^◌, ◌≤◌, length, slice_index, IsTrue};
ghost use Rattle.gic_sweep.specs.declared.solver.TheConstants.{MOST_ROUNDS};
ghost use Rattle.gic_enclose.specs.declared.phases.TheConstants.{PHASE, PHASES};
ghost use Rattle.gic_model.specs.Voltages.{number_at};
ghost use Rattle.gic_model.specs.Guess.{IsSettled, IsSettledWithin};
ghost use Rattle.gic_net.specs.Net.{standing};
ghost use Rattle.gic_enclose.specs.Drive.{CanEnclose};

use crate::laws::sweeps_converge_law;
use crate::phases::{PHASE, PHASES};
use gic_bound::BoundVector;
use gic_model::WideVolts;
use gic_net::Net;
use gic_sweep::{Solver, Steps, improve, is_settled, sweep};
use std::sync::ledger::Ledger;

/// The turns between two looks whether the guesses are settled.
const LOOK: u32 = 16;

/// Whether the guesses are settled, which it looks at in every sixteenth turn.
fn is_seen_settled(turn: u32, net: &Net, volts: &WideVolts, solver: &mut Solver) -> bool
    requires volts { length volts.now ≡ length net.now.network.list }
    requires nodes { length solver.old ≡ net.now.network.nodes }
    ensures settled { IsTrue result → IsSettled (standing net.now) (number_at volts.now) (number_at solver.old) }
    ensures seen { turn % LOOK ≡ 0 → IsSettledWithin (standing net.now) (number_at volts.now) (number_at solver.old) (2 ^ 17) →
        IsTrue result }
    ensures same { solver.new ≡ solver.old }
{
    turn % LOOK == 0 && is_settled(net, volts, solver)
}

/// Sweeps until the guesses are settled, whatever they were before. At most four rough corrections come first, after
/// which hardly a sweep is left; each correction and each sweep ticks once. It looks every sixteen sweeps whether the
/// guesses are settled, and stops then; the 98 phases of 8192 sweeps are enough for any network. The voltages drive no
/// potential far, and the vector is a bound vector of the net; voltages and guesses are those of the net's elements and nodes.
pub fn settle_wide<L: Ledger>(
    net: &Net,
    volts: &WideVolts,
    bound: &BoundVector,
    solver: &mut Solver,
    steps: &mut Steps<L>,
)
    requires volts { length volts.now ≡ length net.now.network.list }
    requires nodes { length solver.old ≡ net.now.network.nodes }
    requires can { CanEnclose (standing net.now) (number_at volts.now) (slice_index bound.now) }
    ensures settled { IsSettled (standing net.now) (number_at volts.now) (number_at solver.new) }
    ensures same_length { length solver.new ≡ length solver.old }
    ensures ticks { steps.new ≤ steps.old + (MOST_ROUNDS + 1 + PHASES * PHASE) }
{
    sweeps_converge_law();
    net.within_limits();
    improve(net, volts, solver, steps);
    solver.within_limit();
    sweep(net, volts, solver, steps);
    for phase in 0..PHASES {
        for turn in 0..PHASE {
            if is_seen_settled(turn, net, volts, solver) {
                return;
            }
            sweep(net, volts, solver, steps);
        }
    }
}
