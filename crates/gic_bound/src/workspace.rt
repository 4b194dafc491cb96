//! What is written to where bound vectors are raised and sunk.
use crate::vector::BoundVector;
use gic_base::OutOfMemory;
use std::alloc::Global;
use std::marker::Model;

/// The workspace for a second vector and for nodes that wait to be looked at. It is seen as the number of nodes; what
/// stands in it between calls is of no use.
pub struct Workspace {
    pub(crate) vector: BoundVector,
    pub(crate) waiting: Vec<u16>,
}

impl Model for Workspace {
    ghost use Rattle.std.specs.Prelude.{ℕ, length};

    ghost Value = { ℕ };

    ghost view = { λ r. length r.vector };
}

impl Drop for Workspace {
    /// Lets go of everything, in one step for whoever drops it.
    fn drop(self) {
        let Workspace {
            vector: _vector,
            waiting: _waiting,
        } = self;
    }
}

impl Workspace {
    ghost use Rattle.std.specs.Prelude.{◌≡◌, IfOk};

    /// For a network of this many nodes.
    pub fn new(alloc: Global, nodes: u16) -> Result<Workspace, OutOfMemory>
        ensures { IfOk result (λ workspace. workspace ≡ nodes) }
    {
        let vector = BoundVector::new(alloc, nodes)?;
        let waiting = vec![in alloc; 0; nodes as usize]?;
        Ok(Workspace { vector, waiting })
    }
}
