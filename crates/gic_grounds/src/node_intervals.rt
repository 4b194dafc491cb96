//! One interval for each node, in whatever unit.
ghost use Rattle.std.specs.Prelude.{◌≡◌, ◌^◌, ◌*◌, ◌<◌, map, length};
ghost use Rattle.gic_fixed.specs.Ends.{ends_of};
ghost use Rattle.gic_model.specs.Guess.{most_guess};
ghost use Rattle.gic_varied.specs.Certified.{in_units};
ghost use Rattle.gic_grounds.specs.NodeEnds.{AreAllWithin};

use gic_base::{NodeId, OutOfMemory};
use gic_enclose::Potentials;
use gic_fixed::Interval;
use std::alloc::Global;
use std::marker::Model;

/// The grains of a nanovolt.
const GRAINS: i128 = 1 << 36;

/// One interval for each node, in a unit that is the holder's to know.
pub struct NodeIntervals {
    list: Vec<Interval>,
}

impl Model for NodeIntervals {
    ghost use Rattle.std.specs.Prelude.{List, map, length, ◌<◌, ◌^◌};
    ghost use Rattle.gic_fixed.specs.Ends.{Ends, ends_of};

    ghost Value = { List Ends };

    ghost view = { λ n. map ends_of n.list.items };

    ghost invariant = { λ n. length n.list.items < 2 ^ 16 };
}

impl Drop for NodeIntervals {
    /// Lets go of everything, in one step for whoever drops it.
    fn drop(self) {
        let NodeIntervals { list: _list } = self;
    }
}

impl NodeIntervals {
    ghost use Rattle.std.specs.Prelude.{ℕ, ◌≡◌, ◌^◌, ◌*◌, ◌<◌, map, length, replicate, IfOk};
    ghost use Rattle.gic_enclose.specs.Ends.{low_at, high_at};
    ghost use Rattle.gic_fixed.specs.Ends.{ends_of, zero_ends};
    ghost use Rattle.gic_model.specs.Guess.{most_guess};
    ghost use Rattle.gic_varied.specs.Certified.{in_units};
    ghost use Rattle.gic_grounds.specs.NodeEnds.{AreAllWithin};

    /// For a network of this many nodes; each interval is the point 0.
    pub fn new(alloc: Global, nodes: u16) -> Result<NodeIntervals, OutOfMemory>
        ensures { IfOk result (λ intervals. intervals ≡ replicate nodes zero_ends) }
    {
        let list = vec![in alloc; Interval::point(0); nodes as usize]?;
        Ok(NodeIntervals { list })
    }

    /// How many nodes there are.
    pub fn nodes(&self) -> u16
        ensures { result ≡ length self.now }
    {
        self.list.len() as u16
    }

    /// The interval at a node.
    pub fn get(&self, node: NodeId) -> Interval
        requires { node.0 < length self.now }
        ensures low { result.lo ≡ low_at self.now node.0 }
        ensures high { result.hi ≡ high_at self.now node.0 }
    {
        self.list[node.0 as usize]
    }

    /// Takes over the intervals that a solve left, in grains of 2^-36 nanovolt.
    pub fn keep(&mut self, potentials: &Potentials)
        requires { length potentials.now ≡ length self.old }
        ensures same { self.new ≡ potentials.now }
        ensures small { AreAllWithin most_guess self.new }
    {
        keep_all(self.list.as_mut_slice(), potentials);
    }

    /// Goes over from grains to units of so many nanovolts, rounded outward.
    pub fn in_units(&mut self, unit: u32)
        requires { 0 < unit }
        ensures rounded { self.new ≡ map (in_units unit) self.old }
        ensures within { (bound : ℕ) → AreAllWithin (2 ^ 36 * unit * bound) self.old → AreAllWithin bound self.new }
        ensures count { length self.new ≡ length self.old }
    {
        round_all(self.list.as_mut_slice(), unit);
    }
}

/// Puts the interval of each node.
fn keep_all(list: &mut [Interval], potentials: &Potentials)
    requires nodes { length potentials.now ≡ length list.old }
    requires few { length list.old < 2 ^ 16 }
    ensures same { map ends_of list.new ≡ potentials.now }
    ensures small { AreAllWithin most_guess potentials.now }
{
    for node in 0..list.len() as u16 {
        list[node as usize] = potentials.get(NodeId(node));
    }
}

/// The interval in grains, rounded outward to units of so many nanovolts.
fn rounded(grains: &Interval, unit: u32) -> Interval
    requires { 0 < unit }
    ensures { ends_of result ≡ in_units unit (ends_of grains.now) }
{
    grains.div_out(i128::from(unit) * GRAINS)
}

/// Rounds each interval outward to units of so many nanovolts.
fn round_all(list: &mut [Interval], unit: u32)
    requires { 0 < unit }
    ensures { map ends_of list.new ≡ map (in_units unit) (map ends_of list.old) }
{
    for interval in list {
        *interval = rounded(interval, unit);
    }
}
