//! One interval for each node.
use gic_base::{NodeId, OutOfMemory};
use gic_fixed::Interval;
use gic_model::WideVolts;
use gic_net::Net;
use gic_sweep::{Residuals, Solver, reach};
use std::alloc::Global;
use std::marker::Model;

/// One interval for each node, in grains of 2^-36 nanovolt, each with both ends from -2^96 to 2^96.
pub struct Potentials {
    intervals: Vec<Interval>,
    /// The workspace for the residuals.
    residuals: Residuals,
}

impl Model for Potentials {
    ghost use Rattle.std.specs.Prelude.{List, map};
    ghost use Rattle.gic_enclose.specs.Ends.{AreIntervals};
    ghost use Rattle.gic_fixed.specs.Ends.{Ends, ends_of};

    ghost Value = { List Ends };

    ghost view = { λ p. map ends_of p.intervals.items };

    ghost invariant = { λ p. AreIntervals p.intervals.items p.residuals };
}

impl Drop for Potentials {
    /// Lets go of everything, in one step for whoever drops it.
    fn drop(self) {
        let Potentials {
            intervals: _intervals,
            residuals: _residuals,
        } = self;
    }
}

impl Potentials {
    ghost use Rattle.std.specs.Prelude.{ℕ, ◌≡◌, ◌^◌, ◌<◌, ◌≤◌, length, replicate, slice_set, IfOk};
    ghost use Rattle.gic_fixed.specs.Encloses.{IsWithin};
    ghost use Rattle.gic_model.specs.Voltages.{number_at};
    ghost use Rattle.gic_model.specs.Guess.{most_guess, IsSettledWithin};
    ghost use Rattle.gic_net.specs.Net.{standing};
    ghost use Rattle.gic_sweep.specs.Residuals.{most_reach};
    ghost use Rattle.gic_enclose.specs.Ends.{low_at, high_at};
    ghost use Rattle.gic_fixed.specs.Ends.{ends_of, zero_ends};

    /// For a network of this many nodes; each interval is the point 0.
    pub fn new(alloc: Global, nodes: u16) -> Result<Potentials, OutOfMemory>
        ensures { IfOk result (λ potentials. potentials ≡ replicate nodes zero_ends) }
    {
        let residuals = Residuals::new(alloc, nodes)?;
        let intervals = vec![in alloc; Interval::point(0); nodes as usize]?;
        Ok(Potentials {
            intervals,
            residuals,
        })
    }

    /// The interval at a node, in grains.
    pub fn get(&self, node: NodeId) -> Interval
        requires { node.0 < length self.now }
        ensures low { result.lo ≡ low_at self.now node.0 }
        ensures high { result.hi ≡ high_at self.now node.0 }
        ensures small { IsWithin most_guess result.lo result.hi }
    {
        self.intervals[node.0 as usize]
    }

    /// Changes the interval at this node alone.
    pub(crate) fn set(&mut self, node: NodeId, interval: Interval)
        requires node { node.0 < length self.old }
        requires small { IsWithin most_guess interval.lo interval.hi }
        ensures { self.new ≡ slice_set self.old node.0 (ends_of interval) }
    {
        self.intervals[node.0 as usize] = interval;
    }

    /// The grains within which the guesses are settled, as their residuals show, and hardly more than those within
    /// which they are settled indeed.
    pub(crate) fn reach(&mut self, net: &Net, volts: &WideVolts, solver: &Solver) -> u128
        requires volts { length volts.now ≡ length net.now.network.list }
        requires nodes { length solver.now ≡ net.now.network.nodes }
        requires space { length self.old ≡ net.now.network.nodes }
        ensures same { self.new ≡ self.old }
        ensures settled { IsSettledWithin (standing net.now) (number_at volts.now) (number_at solver.now) result }
        ensures small { result ≤ 2 ^ 99 }
        ensures close { (t : ℕ) → IsSettledWithin (standing net.now) (number_at volts.now) (number_at solver.now) t →
            result ≤ most_reach t }
    {
        reach(net, volts, solver, &mut self.residuals)
    }
}
