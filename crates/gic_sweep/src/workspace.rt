//! What a solver writes to besides its guesses.
use crate::guesses::{FormerGuesses, Guesses};
use crate::improving::propose;
use crate::residuals::Residuals;
use crate::settling::are_settled;
use crate::steps::Steps;
use crate::sweeping::sweep_from;
use gic_base::OutOfMemory;
use gic_model::WideVolts;
use gic_net::Net;
use gic_precondition::RoughSolver;
use std::alloc::Global;
use std::marker::Model;
use std::sync::ledger::Ledger;

/// The guesses as they were before they are written, and residuals. It is seen as the number of nodes; no promise rests
/// on what stands in it between calls.
#[derive(Drop)]
pub(crate) struct Workspace {
    former: FormerGuesses,
    residuals: Residuals,
}

impl Model for Workspace {
    ghost use Rattle.std.specs.Prelude.{ℕ, ◌≡◌, length};
    ghost use Rattle.gic_sweep.specs.ResidualEnds.{node_count};

    ghost Value = { ℕ };

    ghost view = { λ w. length w.former };

    ghost invariant = { λ w. node_count w.residuals ≡ length w.former };
}

impl Workspace {
    ghost use Rattle.std.specs.Prelude.{◌≡◌, ◌+◌, ◌^◌, length, IfOk, IsTrue};
    ghost use Rattle.gic_model.specs.Guess.{IsSettled, IsSettledWithin};
    ghost use Rattle.gic_model.specs.Voltages.{number_at};
    ghost use Rattle.gic_net.specs.Net.{standing};
    ghost use Rattle.gic_sweep.specs.Sweep.{IsSweep};

    /// For a network of this many nodes.
    pub(crate) fn new(alloc: Global, nodes: u16) -> Result<Workspace, OutOfMemory>
        ensures { IfOk result (λ workspace. workspace ≡ nodes) }
    {
        let former = FormerGuesses::new(alloc, nodes)?;
        let residuals = Residuals::new(alloc, nodes)?;
        Ok(Workspace { former, residuals })
    }

    /// One sweep over the guesses, which ticks once.
    pub(crate) fn sweep<L: Ledger>(
        &mut self,
        net: &Net,
        volts: &WideVolts,
        guesses: &mut Guesses,
        steps: &mut Steps<L>,
    )
        requires volts { length volts.now ≡ length net.now.network.list }
        requires nodes { length guesses.old ≡ net.now.network.nodes }
        requires space { self.old ≡ net.now.network.nodes }
        ensures sweep { IsSweep (standing net.now) (number_at volts.now) (number_at guesses.old) (number_at guesses.new) }
        ensures same_length { length guesses.new ≡ length guesses.old }
        ensures same_space { self.new ≡ self.old }
        ensures tick { steps.new ≡ steps.old + 1 }
    {
        self.former.copy_from(guesses);
        self.residuals.find(net, volts, self.former.as_slice());
        sweep_from(
            net,
            volts,
            self.former.as_slice(),
            self.residuals.low(),
            guesses,
            steps,
        );
    }

    /// Finds the residuals of the guesses.
    pub(crate) fn find_residuals(&mut self, net: &Net, volts: &WideVolts, guesses: &Guesses)
        requires volts { length volts.now ≡ length net.now.network.list }
        requires nodes { length guesses.now ≡ net.now.network.nodes }
        requires space { self.old ≡ net.now.network.nodes }
        ensures { self.new ≡ self.old }
    {
        self.residuals.find(net, volts, guesses.as_slice());
    }

    /// The residuals rounded down, by the nodes, as they were found last.
    pub(crate) fn low_residuals(&self) -> &[i128]
        ensures { length result.now ≡ self.now }
    {
        self.residuals.low()
    }

    /// Puts in the guesses that a rough solver proposes, and ticks once.
    pub(crate) fn propose<L: Ledger>(
        &mut self,
        rough_solver: &RoughSolver,
        guesses: &mut Guesses,
        steps: &mut Steps<L>,
    )
        requires nodes { rough_solver.now ≡ length guesses.old }
        requires space { self.old ≡ length guesses.old }
        ensures same_length { length guesses.new ≡ length guesses.old }
        ensures same_space { self.new ≡ self.old }
        ensures tick { steps.new ≡ steps.old + 1 }
    {
        self.former.copy_from(guesses);
        propose(rough_solver, &self.former, guesses, steps);
    }

    /// Whether the residuals show that the guesses are settled, as they do where the guesses are settled within half of
    /// the grains.
    pub(crate) fn are_settled(&mut self, net: &Net, volts: &WideVolts, guesses: &Guesses) -> bool
        requires volts { length volts.now ≡ length net.now.network.list }
        requires nodes { length guesses.now ≡ net.now.network.nodes }
        requires space { self.old ≡ net.now.network.nodes }
        ensures settled { IsTrue result → IsSettled (standing net.now) (number_at volts.now) (number_at guesses.now) }
        ensures seen { IsSettledWithin (standing net.now) (number_at volts.now) (number_at guesses.now) (2 ^ 17) → IsTrue result }
        ensures same_space { self.new ≡ self.old }
    {
        are_settled(net, volts, guesses.as_slice(), &mut self.residuals)
    }
}
