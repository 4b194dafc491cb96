//! Guesses of the potentials.
use crate::guesses::Guesses;
use crate::node_sums::rounded_residual;
use crate::reaching::reach_between;
use crate::residuals::Residuals;
use crate::steps::Steps;
use crate::workspace::Workspace;
use gic_base::{NodeId, OutOfMemory};
use gic_fixed::Interval;
use gic_model::WideVolts;
use gic_model::laws::rounded_residual_law;
use gic_net::Net;
use gic_precondition::RoughSolver;
use std::alloc::Global;
use std::marker::Model;
use std::sync::ledger::Ledger;

/// One guess for each node, in grains of 2^-36 nanovolt, each from -2^96 to 2^96.
pub struct Solver {
    guesses: Guesses,
    workspace: Workspace,
    rough_solver: RoughSolver,
}

impl Model for Solver {
    ghost use Rattle.std.specs.Prelude.{List, ℤ};
    ghost use Rattle.gic_sweep.specs.Guesses.{IsSpaceForGuesses};

    ghost Value = { List ℤ };

    ghost view = { λ s. s.guesses };

    ghost invariant = { λ s. IsSpaceForGuesses s.guesses s.workspace s.rough_solver };
}

impl Drop for Solver {
    /// Lets go of everything, in one step for whoever drops it.
    fn drop(self) {
        let Solver {
            guesses: _guesses,
            workspace: _workspace,
            rough_solver: _rough_solver,
        } = self;
    }
}

ghost use Rattle.std.specs.Prelude.{◌≡◌, ℕ, ℤ, ◌+◌, ◌^◌, ◌<◌, ◌≤◌, ◌*◌, length, IfOk, replicate, pos, unsigned_abs, IsTrue, IfSome, IfNone};
ghost use Rattle.gic_base.specs.declared.id.NodeId.{NodeId};
ghost use Rattle.gic_fixed.specs.Encloses.{IsWithin};
ghost use Rattle.gic_fixed.specs.Ends.{IsAtMostWide};
ghost use Rattle.gic_model.specs.Guess.{most_guess, HoldsResidual, IsSettled, IsSettledWithin, diagonal};
ghost use Rattle.gic_model.specs.Voltages.{number_at};
ghost use Rattle.gic_net.specs.Net.{standing, row_at};
ghost use Rattle.gic_sweep.specs.Guesses.{AreCut};
ghost use Rattle.gic_sweep.specs.ResidualEnds.{AreEndsFor, node_count};
ghost use Rattle.gic_sweep.specs.Residuals.{HoldResiduals, most_reach};
ghost use Rattle.gic_sweep.specs.Sweep.{IsSweep};
ghost use Rattle.gic_precondition.specs.declared.gradients.TheConstants.{MOST_PASSES};

impl Solver {
    /// For a network of this many nodes and elements; all guesses are 0.
    pub fn new(alloc: Global, nodes: u16, elements: u16) -> Result<Solver, OutOfMemory>
        ensures { IfOk result (λ solver. solver ≡ replicate nodes (pos 0)) }
    {
        let guesses = Guesses::new(alloc, nodes)?;
        let workspace = Workspace::new(alloc, nodes)?;
        let rough_solver = RoughSolver::new(alloc, nodes, elements)?;
        Ok(Solver {
            guesses,
            workspace,
            rough_solver,
        })
    }

    /// Makes all guesses 0.
    pub fn clear(&mut self)
        ensures { self.new ≡ replicate (length self.old) (pos 0) }
    {
        self.guesses.clear();
    }

    /// No guess is beyond its limit. The call computes nothing: it brings this fact to where it stands.
    pub fn within_limit(&self)
        ensures { AreCut (number_at self.now) }
    {
        let _ = self.guesses.as_slice();
    }

    /// The guess at a node, in grains.
    pub fn guess(&self, node: NodeId) -> i128
        requires { node.0 < length self.now }
        ensures value { result ≡ number_at self.now node.0 }
        ensures cut { AreCut (number_at self.now) }
    {
        self.guesses.as_slice()[node.0 as usize]
    }

    /// Makes each node's guess the closure's answer for that node, and ticks once.
    pub fn fill<L: Ledger, F: Fn(NodeId) -> i128>(&mut self, grains: &F, steps: &mut Steps<L>)
        requires callable { (node : NodeId) → node.0 < length self.old → F.pre grains.now node }
        requires small { (node : NodeId) (z : ℤ) → node.0 < length self.old → F.post grains.now node z → unsigned_abs z ≤ most_guess }
        ensures each { (node : NodeId) → node.0 < length self.old → F.post grains.now node (number_at self.new node.0) }
        ensures same_length { length self.new ≡ length self.old }
        ensures tick { steps.new ≡ steps.old + 1 }
    {
        self.guesses.fill(grains, steps);
    }

    /// The guesses, by their nodes.
    pub fn guesses(&self) -> &[i128]
        ensures value { result.now ≡ self.now }
        ensures cut { AreCut (number_at self.now) }
    {
        self.guesses.as_slice()
    }

    fn advance<L: Ledger>(&mut self, net: &Net, volts: &WideVolts, steps: &mut Steps<L>)
        requires volts { length volts.now ≡ length net.now.network.list }
        requires nodes { length self.old ≡ net.now.network.nodes }
        ensures sweep { IsSweep (standing net.now) (number_at volts.now) (number_at self.old) (number_at self.new) }
        ensures same_length { length self.new ≡ length self.old }
        ensures tick { steps.new ≡ steps.old + 1 }
    {
        self.workspace.sweep(net, volts, &mut self.guesses, steps);
    }

    /// Makes the rough solver ready for a net.
    fn arrange(&mut self, net: &Net)
        requires { length self.old ≡ net.now.network.nodes }
        ensures { self.new ≡ self.old }
    {
        self.rough_solver.arrange(net);
    }

    /// Puts guesses in that the rough solver proposes, which ticks once, and hands on how many passes it tells of.
    /// Where it proposes none, no guess is changed and nothing ticks.
    fn approach<L: Ledger>(
        &mut self,
        net: &Net,
        volts: &WideVolts,
        steps: &mut Steps<L>,
    ) -> Option<u32>
        requires volts { length volts.now ≡ length net.now.network.list }
        requires nodes { length self.old ≡ net.now.network.nodes }
        ensures same_length { length self.new ≡ length self.old }
        ensures passes { IfSome result (λ passes. passes ≤ MOST_PASSES) }
        ensures tick { IfSome result (λ passes. steps.new ≡ steps.old + 1) }
        ensures no_tick { IfNone result (steps.new ≡ steps.old) }
        ensures same { IfNone result (self.new ≡ self.old) }
    {
        self.workspace.find_residuals(net, volts, &self.guesses);
        let passes = self.rough_solver.correct(self.workspace.low_residuals())?;
        self.workspace
            .propose(&self.rough_solver, &mut self.guesses, steps);
        Some(passes)
    }

    /// Whether the residuals show that the guesses are settled.
    fn is_settled(&mut self, net: &Net, volts: &WideVolts) -> bool
        requires volts { length volts.now ≡ length net.now.network.list }
        requires nodes { length self.old ≡ net.now.network.nodes }
        ensures settled { IsTrue result → IsSettled (standing net.now) (number_at volts.now) (number_at self.old) }
        ensures seen { IsSettledWithin (standing net.now) (number_at volts.now) (number_at self.old) (2 ^ 17) → IsTrue result }
        ensures same { self.new ≡ self.old }
    {
        self.workspace.are_settled(net, volts, &self.guesses)
    }
}

/// One sweep over the guesses, which ticks once: the guess at each live node moves to within `2 + 4096 * h / d` grains
/// of the old guess less its old residual over the node's diagonal d, where h is how many standing elements the node
/// has, and is then cut to its limit. All residuals are those of the old guesses. The guesses at dead nodes stay. The
/// voltages and the guesses are those of the net's elements and nodes.
pub fn sweep<L: Ledger>(net: &Net, volts: &WideVolts, solver: &mut Solver, steps: &mut Steps<L>)
    requires volts { length volts.now ≡ length net.now.network.list }
    requires nodes { length solver.old ≡ net.now.network.nodes }
    ensures sweep { IsSweep (standing net.now) (number_at volts.now) (number_at solver.old) (number_at solver.new) }
    ensures same_length { length solver.new ≡ length solver.old }
    ensures tick { steps.new ≡ steps.old + 1 }
{
    solver.advance(net, volts, steps);
}

/// The most rough corrections that `improve` makes.
pub const MOST_ROUNDS: u8 = 4;

/// What rough corrections took.
#[derive(Clone, Copy)]
pub struct Improvement {
    /// How many corrections were made, each with one tick.
    pub rounds: u8,
    /// The passes of conjugate gradients that the rough solver tells of, for all of them: only the most is promised.
    pub passes: u32,
}

/// Brings the guesses closer to Kirchhoff's law by at most four rough corrections, each of which ticks once. Nothing is
/// promised of the guesses after a correction: this only saves sweeps. The voltages and the guesses are those of the
/// net's elements and nodes.
pub fn improve<L: Ledger>(
    net: &Net,
    volts: &WideVolts,
    solver: &mut Solver,
    steps: &mut Steps<L>,
) -> Improvement
    requires volts { length volts.now ≡ length net.now.network.list }
    requires nodes { length solver.old ≡ net.now.network.nodes }
    ensures tick { steps.new ≡ steps.old + result.rounds }
    ensures few_rounds { result.rounds ≤ MOST_ROUNDS }
    ensures few_passes { result.passes ≤ MOST_PASSES * result.rounds }
    ensures same { result.rounds ≡ 0 → solver.new ≡ solver.old }
    ensures same_length { length solver.new ≡ length solver.old }
{
    solver.arrange(net);
    let mut passes: u32 = 0;
    for round in 0..MOST_ROUNDS {
        match solver.approach(net, volts, steps) {
            Some(more) => passes += more,
            None => {
                return Improvement {
                    rounds: round,
                    passes,
                };
            }
        }
    }
    Improvement {
        rounds: MOST_ROUNDS,
        passes,
    }
}

/// Whether the residuals show that the guesses are settled, which is within 2^18 grains, as they do where the guesses are
/// settled within half of that. The guesses stay; the voltages and the guesses are those of the net's elements and nodes.
pub fn is_settled(net: &Net, volts: &WideVolts, solver: &mut Solver) -> bool
    requires volts { length volts.now ≡ length net.now.network.list }
    requires nodes { length solver.old ≡ net.now.network.nodes }
    ensures settled { IsTrue result → IsSettled (standing net.now) (number_at volts.now) (number_at solver.old) }
    ensures seen { IsSettledWithin (standing net.now) (number_at volts.now) (number_at solver.old) (2 ^ 17) → IsTrue result }
    ensures same { solver.new ≡ solver.old }
{
    solver.is_settled(net, volts)
}

/// An interval in units of 2^-44 nanoampere that holds the residual of the guesses at a node: the current that leaves
/// it less the current that enters it. It is at most as wide as the node has standing elements. The voltages and the
/// guesses are those of the net's elements and nodes.
pub fn residual(net: &Net, volts: &WideVolts, solver: &Solver, node: NodeId) -> Interval
    requires volts { length volts.now ≡ length net.now.network.list }
    requires nodes { length solver.now ≡ net.now.network.nodes }
    requires node { node.0 < net.now.network.nodes }
    ensures holds { HoldsResidual (standing net.now) (number_at volts.now) (number_at solver.now) node.0 result.lo result.hi }
    ensures narrow { IsAtMostWide (length (row_at net.now node.0)) result.lo result.hi }
    ensures small { IsWithin (diagonal (standing net.now) node.0 * 2 ^ 86) result.lo result.hi }
{
    rounded_residual_law();
    net.within_limits();
    rounded_residual(net, volts, solver.guesses(), node)
}

/// The ends of an interval as `residual` gives it, at each node. The voltages, the guesses and the residuals are those of
/// the net's elements and nodes.
pub fn find_residuals(net: &Net, volts: &WideVolts, solver: &Solver, residuals: &mut Residuals)
    requires volts { length volts.now ≡ length net.now.network.list }
    requires nodes { length solver.now ≡ net.now.network.nodes }
    requires space { node_count residuals.old ≡ net.now.network.nodes }
    ensures holds { HoldResiduals (standing net.now) (number_at volts.now) (number_at solver.now) residuals.new }
    ensures ends { AreEndsFor net.now residuals.new }
{
    rounded_residual_law();
    net.within_limits();
    residuals.find(net, volts, solver.guesses());
}

/// The grains within which the guesses are settled, as their residuals show: for each unit of a bound vector no
/// solution is further from the guess at a node. They are hardly more than those within which the guesses are settled
/// indeed. `residuals` is space for the residuals.
pub fn reach(net: &Net, volts: &WideVolts, solver: &Solver, residuals: &mut Residuals) -> u128
    requires volts { length volts.now ≡ length net.now.network.list }
    requires nodes { length solver.now ≡ net.now.network.nodes }
    requires space { node_count residuals.old ≡ net.now.network.nodes }
    ensures space { node_count residuals.new ≡ node_count residuals.old }
    ensures settled { IsSettledWithin (standing net.now) (number_at volts.now) (number_at solver.now) result }
    ensures small { result ≤ 2 ^ 99 }
    ensures close { (t : ℕ) → IsSettledWithin (standing net.now) (number_at volts.now) (number_at solver.now) t → result ≤ most_reach t }
{
    find_residuals(net, volts, solver, residuals);
    reach_between(net, residuals)
}
