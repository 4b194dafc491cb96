//! What a search for a bound vector writes to.
use gic_base::OutOfMemory;
use gic_bound::Workspace;
use gic_precondition::RoughSolver;
use std::alloc::Global;
use std::marker::Model;

/// What a search for a bound vector writes to besides the vector. It is seen as the number of nodes; no
/// promise rests on what stands in it between calls.
pub struct Start {
    pub(crate) rough_solver: RoughSolver,
    /// The conductances of nodes.
    pub(crate) conductances: Vec<i128>,
    pub(crate) workspace: Workspace,
}

impl Model for Start {
    ghost use Rattle.std.specs.Prelude.{ℕ, ◌≡◌, length};

    ghost Value = { ℕ };

    ghost view = { λ s. s.workspace };

    ghost invariant = { λ s. (s.rough_solver ≡ s.workspace) × (length s.conductances.items ≡ s.workspace) };
}

ghost use Rattle.std.specs.Prelude.{◌≡◌, IfOk};

impl Drop for Start {
    /// Lets go of everything. Whoever drops a start has this one step, and not one for each part.
    fn drop(self) {
        let Start {
            rough_solver: _rough_solver,
            conductances: _conductances,
            workspace: _workspace,
        } = self;
    }
}

impl Start {
    /// For networks of this many nodes and elements.
    pub fn new(alloc: Global, nodes: u16, elements: u16) -> Result<Start, OutOfMemory>
        ensures { IfOk result (λ start. start ≡ nodes) }
    {
        let rough_solver = RoughSolver::new(alloc, nodes, elements)?;
        let conductances = vec![in alloc; 0; nodes as usize]?;
        let workspace = Workspace::new(alloc, nodes)?;
        Ok(Start {
            rough_solver,
            conductances,
            workspace,
        })
    }
}
