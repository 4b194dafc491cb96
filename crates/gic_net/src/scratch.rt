//! The nodes that were reached.
use gic_base::OutOfMemory;
use std::alloc::Global;
use std::marker::Model;

/// The workspace for the nodes that are reached, each once, in the order in which they are.
pub struct Scratch {
    /// For each node whether it was reached.
    marks: Vec<bool>,
    /// The nodes that were reached, and space for the others.
    queue: Vec<u16>,
    count: usize,
}

impl Model for Scratch {
    ghost use Rattle.std.specs.Prelude.{length, take};
    ghost use Rattle.gic_net.specs.Scratch.{ScratchView, IsMarked};

    ghost Value = { ScratchView };

    ghost view = { λ a. record { nodes = length a.marks.items; reached = take a.count a.queue.items } };

    ghost invariant = { λ a. IsMarked a.marks.items a.queue.items a.count };
}

impl Drop for Scratch {
    /// Lets go of everything, in one step for whoever drops it.
    fn drop(self) {
        let Scratch {
            marks: _marks,
            queue: _queue,
            count: _count,
        } = self;
    }
}

impl Scratch {
    ghost use Rattle.std.specs.Prelude.{◌≡◌, ◌<◌, ◌≤◌, [], length, slice_index, IfOk};
    ghost use Rattle.gic_net.specs.Scratch.{ScratchView, is_reached, with_node};

    /// For a network of this many nodes.
    pub fn new(alloc: Global, nodes: u16) -> Result<Scratch, OutOfMemory>
        ensures { IfOk result (λ scratch. scratch ≡ record { nodes = nodes; reached = [] }) }
    {
        let marks = vec![in alloc; false; nodes as usize]?;
        let queue = vec![in alloc; 0; nodes as usize]?;
        Ok(Scratch {
            marks,
            queue,
            count: 0,
        })
    }

    /// No node is reached.
    pub(crate) fn clear(&mut self)
        ensures { self.new ≡ record self.old { reached = [] } }
    {
        self.marks.fill(false);
        self.count = 0;
    }

    /// The node is reached, as the last one unless it was before.
    pub(crate) fn reach(&mut self, node: u16)
        requires { node < self.old.nodes }
        ensures { self.new ≡ record self.old { reached = with_node self.old.reached node } }
    {
        if !self.marks[node as usize] {
            self.marks[node as usize] = true;
            self.queue[self.count] = node;
            self.count += 1;
        }
    }

    /// Whether the node is reached.
    pub(crate) fn has(&self, node: u16) -> bool
        requires { node < self.now.nodes }
        ensures { result ≡ is_reached self.now.reached node }
    {
        self.marks[node as usize]
    }

    /// How many nodes are reached.
    pub(crate) fn count(&self) -> usize
        ensures value { result ≡ length self.now.reached }
        ensures few { result ≤ self.now.nodes }
    {
        self.count
    }

    /// The node that was reached at this place of the order.
    pub(crate) fn reached_at(&self, place: usize) -> u16
        requires { place < length self.now.reached }
        ensures value { result ≡ slice_index self.now.reached place }
        ensures inside { result < self.now.nodes }
    {
        self.queue[place]
    }
}
