//! The guesses themselves. Only `fill` writes to them, and it ticks; `clear` makes them 0.
use crate::steps::Steps;
use gic_base::{NodeId, OutOfMemory};
use std::alloc::Global;
use std::marker::Model;
use std::sync::ledger::Ledger;

/// One guess for each of fewer than 2^16 nodes, in grains of 2^-36 nanovolt, each from -2^96 to 2^96.
#[derive(Drop)]
pub(crate) struct Guesses {
    list: Vec<i128>,
}

impl Model for Guesses {
    ghost use Rattle.std.specs.Prelude.{◌<◌, ◌^◌, List, ℤ, length};
    ghost use Rattle.gic_model.specs.Voltages.{number_at};
    ghost use Rattle.gic_sweep.specs.Guesses.{AreCut};

    ghost Value = { List ℤ };

    ghost view = { λ g. g.list.items };

    ghost invariant = { λ g. AreCut (number_at g.list.items) × (length g.list.items < 2 ^ 16) };
}

impl Guesses {
    ghost use Rattle.std.specs.Prelude.{◌≡◌, ℤ, ◌+◌, ◌^◌, ◌<◌, ◌≤◌, length, IfOk, replicate, pos, unsigned_abs};
    ghost use Rattle.gic_base.specs.declared.id.NodeId.{NodeId};
    ghost use Rattle.gic_model.specs.Guess.{most_guess};
    ghost use Rattle.gic_model.specs.Voltages.{number_at};
    ghost use Rattle.gic_sweep.specs.Guesses.{AreCut};

    /// For a given number of nodes; all guesses are 0.
    pub(crate) fn new(alloc: Global, nodes: u16) -> Result<Guesses, OutOfMemory>
        ensures { IfOk result (λ guesses. guesses ≡ replicate nodes (pos 0)) }
    {
        let list = vec![in alloc; 0; nodes as usize]?;
        Ok(Guesses { list })
    }

    /// Makes all guesses 0.
    pub(crate) fn clear(&mut self)
        ensures { self.new ≡ replicate (length self.old) (pos 0) }
    {
        self.list.fill(0);
    }

    /// The guesses, by their nodes.
    pub(crate) fn as_slice(&self) -> &[i128]
        ensures value { result.now ≡ self.now }
        ensures cut { AreCut (number_at self.now) }
    {
        self.list.as_slice()
    }

    /// Makes each node's guess the closure's answer for that node, and ticks once.
    pub(crate) fn fill<L: Ledger, F: Fn(NodeId) -> i128>(
        &mut self,
        grains: &F,
        steps: &mut Steps<L>,
    )
        requires callable { (node : NodeId) → node.0 < length self.old → F.pre grains.now node }
        requires small { (node : NodeId) (z : ℤ) → node.0 < length self.old → F.post grains.now node z → unsigned_abs z ≤ most_guess }
        ensures each { (node : NodeId) → node.0 < length self.old → F.post grains.now node (number_at self.new node.0) }
        ensures same_length { length self.new ≡ length self.old }
        ensures tick { steps.new ≡ steps.old + 1 }
    {
        write_all(grains, &mut self.list);
        steps.tick();
    }
}

/// The guesses as they were before they are written, for as many nodes.
#[derive(Drop)]
pub(crate) struct FormerGuesses {
    list: Vec<i128>,
}

impl Model for FormerGuesses {
    ghost use Rattle.std.specs.Prelude.{List, ℤ};
    ghost use Rattle.gic_model.specs.Voltages.{number_at};
    ghost use Rattle.gic_sweep.specs.Guesses.{AreCut};

    ghost Value = { List ℤ };

    ghost view = { λ f. f.list.items };

    ghost invariant = { λ f. AreCut (number_at f.list.items) };
}

impl FormerGuesses {
    ghost use Rattle.std.specs.Prelude.{◌≡◌, length, IfOk, replicate, pos};
    ghost use Rattle.gic_model.specs.Voltages.{number_at};
    ghost use Rattle.gic_sweep.specs.Guesses.{AreCut};

    /// For a given number of nodes; all are 0.
    pub(crate) fn new(alloc: Global, nodes: u16) -> Result<FormerGuesses, OutOfMemory>
        ensures { IfOk result (λ former. former ≡ replicate nodes (pos 0)) }
    {
        let list = vec![in alloc; 0; nodes as usize]?;
        Ok(FormerGuesses { list })
    }

    /// Makes them those of these guesses, which are for as many nodes.
    pub(crate) fn copy_from(&mut self, guesses: &Guesses)
        requires { length self.old ≡ length guesses.now }
        ensures { self.new ≡ guesses.now }
    {
        self.list.copy_from_slice(guesses.as_slice());
    }

    /// The guesses as they were, by their nodes.
    pub(crate) fn as_slice(&self) -> &[i128]
        ensures value { result.now ≡ self.now }
        ensures cut { AreCut (number_at self.now) }
    {
        self.list.as_slice()
    }
}

ghost use Rattle.std.specs.Prelude.{◌≡◌, ℤ, ◌^◌, ◌<◌, ◌≤◌, length, unsigned_abs};
ghost use Rattle.gic_base.specs.declared.id.NodeId.{NodeId};
ghost use Rattle.gic_model.specs.Guess.{most_guess};
ghost use Rattle.gic_model.specs.Voltages.{number_at};
ghost use Rattle.gic_sweep.specs.Guesses.{AreCut};

fn write_all<F: Fn(NodeId) -> i128>(grains: &F, guesses: &mut [i128])
    requires callable { (node : NodeId) → node.0 < length guesses.old → F.pre grains.now node }
    requires small { (node : NodeId) (z : ℤ) → node.0 < length guesses.old → F.post grains.now node z → unsigned_abs z ≤ most_guess }
    requires cut { AreCut (number_at guesses.old) }
    requires few { length guesses.old < 2 ^ 16 }
    ensures each { (node : NodeId) → node.0 < length guesses.old → F.post grains.now node (number_at guesses.new node.0) }
    ensures cut { AreCut (number_at guesses.new) }
{
    for node in 0..guesses.len() {
        guesses[node] = grains(NodeId(node as u16));
    }
}
