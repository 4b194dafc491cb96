//! The same calls for the voltages of a case, which drive no potential far.
ghost use Rattle.std.specs.Prelude.{◌≡◌, ℕ, ◌+◌, ◌*◌, ◌^◌, ◌≤◌, length, slice_index, pos, ◌+ℤ◌, ◌*ℤ◌, unsigned_abs};
ghost use Rattle.gic_base.specs.declared.limits.TheConstants.{MOST_WALK};
ghost use Rattle.gic_bound.specs.Entries.{IsBoundWithin};
ghost use Rattle.gic_enclose.specs.Certain.{AreCertain, AreTight, IsNarrow};
ghost use Rattle.gic_enclose.specs.Ends.{potential_ends, low_at, high_at};
ghost use Rattle.gic_enclose.specs.Solved.{IsSolvedWithin};
ghost use Rattle.gic_enclose.specs.Together.{BelongTogether};
ghost use Rattle.gic_enclose.specs.declared.phases.TheConstants.{PHASE, PHASES};
ghost use Rattle.gic_model.specs.Guess.{IsSettled, IsSettledWithin};
ghost use Rattle.gic_model.specs.Standing.{IsLive};
ghost use Rattle.gic_model.specs.Voltages.{number_at};
ghost use Rattle.gic_net.specs.Net.{standing};
ghost use Rattle.gic_sweep.specs.declared.solver.TheConstants.{MOST_ROUNDS};

use crate::enclosing::enclose_wide;
use crate::laws::drive_law;
use crate::potentials::Potentials;
use crate::settling::settle_wide;
use gic_bound::BoundVector;
use gic_model::Volts;
use gic_net::Net;
use gic_sweep::{Solver, Steps};
use std::sync::ledger::Ledger;

/// Sweeps until the guesses are settled, as `settle_wide` does.
pub fn settle<L: Ledger>(
    net: &Net,
    volts: &Volts,
    bound: &BoundVector,
    solver: &mut Solver,
    steps: &mut Steps<L>,
)
    requires volts { length volts.now ≡ length net.now.network.list }
    requires nodes { length solver.old ≡ net.now.network.nodes }
    requires bound { IsBoundWithin (standing net.now) MOST_WALK (slice_index bound.now) }
    ensures settled { IsSettled (standing net.now) (number_at volts.now) (number_at solver.new) }
    ensures same_length { length solver.new ≡ length solver.old }
    ensures ticks { steps.new ≤ steps.old + (MOST_ROUNDS + 1 + PHASES * PHASE) }
{
    drive_law();
    volts.within_limit();
    settle_wide(net, volts.as_wide(), bound, solver, steps);
}

/// Makes the interval at each live node one that holds the node's potential in every solution, as `enclose_wide` does.
pub fn enclose(net: &Net, volts: &Volts, solver: &Solver, bound: &BoundVector, out: &mut Potentials)
    requires together { BelongTogether net.now.network volts.now solver.now bound.now out.old }
    requires bound { IsBoundWithin (standing net.now) MOST_WALK (slice_index bound.now) }
    ensures certain { AreCertain (standing net.now) (number_at volts.now) out.new }
    ensures narrow { IsSettledWithin (standing net.now) (number_at volts.now) (number_at solver.now) (2 ^ 29) → (k : ℕ) →
        IsNarrow (potential_ends out.new k) }
    ensures tight { IsSettled (standing net.now) (number_at volts.now) (number_at solver.now) → AreTight out.new }
    ensures middle { IsSettledWithin (standing net.now) (number_at volts.now) (number_at solver.now) (2 ^ 29) → (k : ℕ) →
        IsLive (standing net.now) k → unsigned_abs (number_at solver.now k) ≤ 2 ^ 95 →
        low_at out.new k +ℤ high_at out.new k ≡ pos 2 *ℤ number_at solver.now k }
    ensures same_length { length out.new ≡ length out.old }
{
    drive_law();
    volts.within_limit();
    enclose_wide(net, volts.as_wide(), solver, bound, out);
}
