//! The ends of the intervals that hold the residuals at all nodes.
use crate::passing::residuals_into;
use gic_base::{NodeId, OutOfMemory};
use gic_model::WideVolts;
use gic_net::Net;
use std::alloc::Global;
use std::marker::Model;

/// For each node the two ends of an interval that holds its residual, in units of 2^-44 nanoampere.
#[derive(Drop)]
pub struct Residuals {
    low: Vec<i128>,
    high: Vec<i128>,
}

impl Model for Residuals {
    ghost use Rattle.std.specs.Prelude.{◌≡◌, length};
    ghost use Rattle.gic_sweep.specs.ResidualEnds.{ResidualEnds};

    ghost Value = { ResidualEnds };

    ghost view = { λ r. record { low = r.low.items; high = r.high.items } };

    ghost invariant = { λ r. length r.high.items ≡ length r.low.items };
}

impl Residuals {
    ghost use Rattle.std.specs.Prelude.{◌≡◌, ℕ, ◌*◌, ◌^◌, ◌<◌, ◌≤◌, ◌⊎◌, length, IfOk, unsigned_abs};
    ghost use Rattle.gic_fixed.specs.Encloses.{IsWithin};
    ghost use Rattle.gic_model.specs.Guess.{diagonal, residual_down, residual_up};
    ghost use Rattle.gic_model.specs.Voltages.{number_at};
    ghost use Rattle.gic_net.specs.Net.{standing};
    ghost use Rattle.gic_sweep.specs.Guesses.{AreCut};
    ghost use Rattle.gic_sweep.specs.ResidualEnds.{node_count, zero_residuals};

    /// For a network of this many nodes; all ends are 0.
    pub fn new(alloc: Global, nodes: u16) -> Result<Residuals, OutOfMemory>
        ensures { IfOk result (λ residuals. residuals ≡ zero_residuals nodes) }
    {
        let low = vec![in alloc; 0; nodes as usize]?;
        let high = vec![in alloc; 0; nodes as usize]?;
        Ok(Residuals { low, high })
    }

    /// The low ends, by the nodes.
    pub fn low(&self) -> &[i128]
        ensures { result.now ≡ self.now.low }
    {
        self.low.as_slice()
    }

    /// The high ends, by the nodes: as many as low ones.
    pub fn high(&self) -> &[i128]
        ensures value { result.now ≡ self.now.high }
        ensures count { length result.now ≡ node_count self.now }
    {
        self.high.as_slice()
    }

    /// The greater absolute value of the two ends at a node.
    pub(crate) fn greatest(&self, node: NodeId) -> u128
        requires { node.0 < node_count self.now }
        ensures either { (result ≡ unsigned_abs (number_at self.now.low node.0))
            ⊎ (result ≡ unsigned_abs (number_at self.now.high node.0)) }
        ensures low { unsigned_abs (number_at self.now.low node.0) ≤ result }
        ensures high { unsigned_abs (number_at self.now.high node.0) ≤ result }
    {
        let place = node.0 as usize;
        self.low[place]
            .unsigned_abs()
            .max(self.high[place].unsigned_abs())
    }

    /// Makes them those of these guesses, each element's part rounded down in the low ends and up in the high ones.
    pub(crate) fn find(&mut self, net: &Net, volts: &WideVolts, guesses: &[i128])
        requires volts { length volts.now ≡ length net.now.network.list }
        requires nodes { length guesses.now ≡ net.now.network.nodes }
        requires guesses { AreCut (number_at guesses.now) }
        requires count { node_count self.old ≡ net.now.network.nodes }
        ensures count { node_count self.new ≡ net.now.network.nodes }
        ensures low { (k : ℕ) → number_at self.new.low k
            ≡ residual_down (standing net.now) (number_at volts.now) (number_at guesses.now) k }
        ensures high { (k : ℕ) → number_at self.new.high k
            ≡ residual_up (standing net.now) (number_at volts.now) (number_at guesses.now) k }
        ensures small { (k : ℕ) →
            IsWithin (diagonal (standing net.now) k * 2 ^ 86) (number_at self.new.low k) (number_at self.new.high k) }
    {
        residuals_into(net, volts, guesses, &mut self.low, &mut self.high);
    }
}
