//! Rough corrections of the guesses.
ghost use Rattle.std.specs.Prelude.{◌≡◌, ◌+◌, ◌<◌, ◌≤◌, length, unsigned_abs};
ghost use Rattle.gic_model.specs.Guess.{most_guess};

use crate::guesses::{FormerGuesses, Guesses};
use crate::steps::Steps;
use gic_base::NodeId;
use gic_precondition::RoughSolver;
use std::sync::ledger::Ledger;

/// Makes of each guess as it was the one that a rough solver proposes, and ticks once.
pub(crate) fn propose<L: Ledger>(
    rough_solver: &RoughSolver,
    former: &FormerGuesses,
    guesses: &mut Guesses,
    steps: &mut Steps<L>,
)
    requires nodes { rough_solver.now ≡ length guesses.old }
    requires former { length former.now ≡ length guesses.old }
    ensures same_length { length guesses.new ≡ length guesses.old }
    ensures tick { steps.new ≡ steps.old + 1 }
{
    let proposed = |node: NodeId| -> i128
        requires nodes { node.0 < rough_solver.now }
        requires former { node.0 < length former.now }
        ensures { unsigned_abs result ≤ most_guess }
    { rough_solver.proposed(node, former.as_slice()[node.0 as usize]) };
    guesses.fill(&proposed, steps);
}
