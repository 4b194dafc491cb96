//! Rough corrections by conjugate gradients with a randomised incomplete Cholesky factorisation as preconditioner.
use crate::gradients::{MOST_PASSES, solve};
use crate::scaling::{Scale, are_small, put_conductances, scale_for, shifted};
use crate::system::System;
use crate::vectors::Vectors;
use gic_base::{NodeId, OutOfMemory};
use gic_model::cut_guess;
use gic_net::Net;
use std::alloc::Global;
use std::marker::Model;

/// A rough solution of a network, for corrections of its guesses and proposals of bound vectors. It is seen as the number of
/// nodes.
pub struct RoughSolver {
    system: System,
    vectors: Vectors,
    /// The conductances of nodes in units of 2^-36 siemens.
    conductances: Vec<u64>,
    /// How the vectors are scaled.
    scale: Scale,
}

impl Model for RoughSolver {
    ghost use Rattle.std.specs.Prelude.{ℕ, ◌≡◌, length};

    ghost Value = { ℕ };

    ghost view = { λ t. t.system };

    ghost invariant = { λ t. (t.vectors ≡ t.system) × (length t.conductances.items ≡ t.system) };
}

ghost use Rattle.std.specs.Prelude.{◌≡◌, ◌+◌, ◌^◌, ◌<◌, ◌≤◌, IfOk, IfSome, length, replicate, unsigned_abs};
ghost use Rattle.gic_model.specs.Guess.{most_guess};

/// The bits of one correction.
const CORRECTION_BITS: u32 = 28;

/// A unit of residual, 2^-44 nanoampere, over a unit of conductance, 2^-36 siemens, is 2 to this many grains.
const GRAIN_BITS: u32 = 28;

impl Drop for RoughSolver {
    /// Lets go of everything. Whoever drops a rough solver has this one step, and not one for each part.
    fn drop(self) {
        let RoughSolver {
            system: _system,
            vectors: _vectors,
            conductances: _conductances,
            scale: _scale,
        } = self;
    }
}

impl RoughSolver {
    /// For a network of this many nodes and elements. Of a network of more elements some are left out.
    pub fn new(alloc: Global, nodes: u16, elements: u16) -> Result<RoughSolver, OutOfMemory>
        ensures { IfOk result (λ rough_solver. rough_solver ≡ nodes) }
    {
        let system = System::new(alloc, nodes, elements)?;
        let vectors = Vectors::new(alloc, nodes)?;
        let conductances = no_conductances(alloc, nodes)?;
        Ok(RoughSolver {
            system,
            vectors,
            conductances,
            scale: Scale { down: 0, lift: 0 },
        })
    }

    /// Makes ready for a net of as many nodes. Its factors are made where other elements stand than in the net before.
    pub fn arrange(&mut self, net: &Net)
        requires { self.old ≡ net.now.network.nodes }
        ensures { self.new ≡ self.old }
    {
        self.system.take(net);
        put_conductances(self.system.wires(), self.conductances.as_mut_slice());
    }

    /// Looks for potentials that make these currents leave the nodes, to about this many bits, and tells a number of
    /// passes that is at most [`MOST_PASSES`]. Nothing is promised of the potentials but their size. Currents of any
    /// size are allowed.
    pub fn balance(&mut self, currents: &[i128], bits: u32) -> u32
        requires currents { length currents.now ≡ self.old }
        requires bits { bits < 64 }
        ensures same_nodes { self.new ≡ self.old }
        ensures few { result ≤ MOST_PASSES }
    {
        self.scale = scale_for(currents, self.conductances.as_slice());
        self.vectors.take(currents, self.scale.down);
        solve(&self.system, self.scale.lift, bits, &mut self.vectors)
    }

    /// The potential at a node, as the last `balance` left it, in units of 2^-fraction of a unit of current over 2^-36
    /// siemens.
    pub fn potential(&self, node: NodeId, fraction: u32) -> i128
        requires node { node.0 < self.now }
        requires fraction { fraction ≤ 64 }
        ensures { unsigned_abs result ≤ 2 ^ 126 }
    {
        let potential = self.vectors.potential(node.0);
        shifted(potential, self.scale.down + fraction, self.scale.lift)
    }

    /// Looks for corrections for these residuals, in units of 2^-44 nanoampere, one for each node, and tells a number of
    /// passes that is at most [`MOST_PASSES`]. It is meant to find none where no residual is more than its node's
    /// conductance carries at three quarters of 2^18 grains, but neither that is promised nor that a correction is of use.
    /// Residuals of any size are allowed.
    pub fn correct(&mut self, residuals: &[i128]) -> Option<u32>
        requires { length residuals.now ≡ self.old }
        ensures same_nodes { self.new ≡ self.old }
        ensures limit { IfSome result (λ passes. passes ≤ MOST_PASSES) }
    {
        if are_small(self.conductances.as_slice(), residuals) {
            return None;
        }
        Some(self.balance(residuals, CORRECTION_BITS))
    }

    /// The guess at a node less its correction, in grains, cut to the limit of a guess.
    pub fn proposed(&self, node: NodeId, guess: i128) -> i128
        requires node { node.0 < self.now }
        requires guess { unsigned_abs guess ≤ most_guess }
        ensures { unsigned_abs result ≤ most_guess }
    {
        cut_guess(guess - self.potential(node, GRAIN_BITS))
    }
}

fn no_conductances(alloc: Global, nodes: u16) -> Result<Vec<u64>, OutOfMemory>
    ensures { IfOk result (λ conductances. conductances.items ≡ replicate nodes 0) }
{
    let conductances = vec![in alloc; 0; nodes as usize]?;
    Ok(conductances)
}
