//! One entry for each node.
use gic_base::limits::FULL_WALK;
use gic_base::{NodeId, OutOfMemory};
use std::alloc::Global;
use std::marker::Model;

/// One entry for each node, each from 0 to [`FULL_WALK`].
#[derive(Drop)]
pub struct BoundVector {
    entries: Vec<u16>,
}

impl Model for BoundVector {
    ghost use Rattle.std.specs.Prelude.{List, ℕ, slice_index};
    ghost use Rattle.gic_bound.specs.Entries.{AreCapped};

    ghost Value = { List ℕ };

    ghost view = { λ v. v.entries.items };

    ghost invariant = { λ v. AreCapped (slice_index v.entries.items) };
}

impl BoundVector {
    ghost use Rattle.std.specs.Prelude.{◌≡◌, ◌≤◌, ◌<◌, ◌↔◌, [], length, replicate, slice_index, slice_set, All, Contains, IfOk, IsTrue};
    ghost use Rattle.gic_bound.specs.Entries.{AreCapped};

    /// For a network of this many nodes; all entries are 0.
    pub fn new(alloc: Global, nodes: u16) -> Result<BoundVector, OutOfMemory>
        ensures { IfOk result (λ vector. vector ≡ replicate nodes 0) }
    {
        let entries = vec![in alloc; 0; nodes as usize]?;
        Ok(BoundVector { entries })
    }

    /// No entry is above [`FULL_WALK`].
    pub(crate) fn is_capped(&self)
        ensures { AreCapped (slice_index self.now) }
    {
        let _ = &self.entries;
    }

    /// The entry at a node. The answer also tells that no entry is above [`FULL_WALK`].
    pub fn entry(&self, node: NodeId) -> u16
        requires { node.0 < length self.now }
        ensures value { result ≡ slice_index self.now node.0 }
        ensures capped { AreCapped (slice_index self.now) }
    {
        self.entries[node.0 as usize]
    }

    /// Changes the entry at this node alone.
    pub fn set(&mut self, node: NodeId, value: u16)
        requires node { node.0 < length self.old }
        requires capped { value ≤ FULL_WALK }
        ensures { self.new ≡ slice_set self.old node.0 value }
    {
        self.entries[node.0 as usize] = value;
    }

    /// Makes the entries those of another vector, which is for as many nodes.
    pub fn copy_from(&mut self, other: &BoundVector)
        requires { length other.now ≡ length self.old }
        ensures { self.new ≡ other.now }
    {
        self.entries.copy_from_slice(&other.entries);
    }

    /// Whether the entries are those of another vector.
    pub(crate) fn is_same(&self, other: &BoundVector) -> bool
        ensures { IsTrue result ↔ (self.now ≡ other.now) }
    {
        self.entries == other.entries
    }

    /// The greatest entry, 0 if there is none.
    pub fn walk(&self) -> u16
        ensures none_above { All (λ entry. entry ≤ result) self.now }
        ensures reached { 0 < length self.now → Contains self.now result }
        ensures none { self.now ≡ [] → result ≡ 0 }
    {
        self.entries.iter().copied().max().unwrap_or(0)
    }
}
