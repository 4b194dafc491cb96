//! The edges of a node that is eliminated.
use crate::ordering::order_neighbours;
use crate::parts::{MOST_NEIGHBOURS, Neighbour};
use gic_base::OutOfMemory;
use std::alloc::Global;
use std::marker::Model;

/// The edges of a node that is eliminated, by the neighbours to which they lead, parallel ones taken together. It is
/// seen as the number of nodes of its network.
#[derive(Drop)]
pub struct Neighbourhood {
    neighbours: Vec<Neighbour>,
    count: usize,
    nodes: u16,
}

impl Model for Neighbourhood {
    ghost use Rattle.std.specs.Prelude.{ℕ, ◌≤◌, length};
    ghost use Rattle.gic_precondition.specs.declared.parts.TheConstants.{MOST_NEIGHBOURS};
    ghost use Rattle.gic_precondition.specs.Inside.{AreNeighboursInside};

    ghost Value = { ℕ };

    ghost view = { λ s. s.nodes };

    ghost invariant = { λ s. AreNeighboursInside s.nodes s.neighbours.items
        × (s.count ≤ length s.neighbours.items) × (length s.neighbours.items ≤ MOST_NEIGHBOURS) };
}

ghost use Rattle.std.specs.Prelude.{◌≡◌, ◌<◌, ◌≤◌, IfOk, length};
ghost use Rattle.gic_precondition.specs.Inside.{AreNeighboursInside};

impl Neighbourhood {
    /// For a network of this many nodes, with space for as many neighbours, and for [`MOST_NEIGHBOURS`] at most.
    pub(crate) fn new(alloc: Global, nodes: u16) -> Result<Neighbourhood, OutOfMemory>
        ensures { IfOk result (λ neighbourhood. neighbourhood ≡ nodes) }
    {
        let neighbours = empty_neighbours(alloc, nodes)?;
        Ok(Neighbourhood {
            neighbours,
            count: 0,
            nodes,
        })
    }

    /// Takes all neighbours away.
    pub(crate) fn clear(&mut self)
        ensures { self.new ≡ self.old }
    {
        self.count = 0;
    }

    /// Adds a neighbour, to the one at `place` where that has the same far end, and says where it stands. Where there
    /// is no more space, it is left out.
    pub(crate) fn add(&mut self, place: u16, neighbour: Neighbour) -> u16
        requires { neighbour.far < self.old }
        ensures { self.new ≡ self.old }
    {
        let near = place as usize;
        if near < self.count && self.neighbours[near].far == neighbour.far {
            let siemens = self.neighbours[near]
                .siemens
                .saturating_add(neighbour.siemens);
            self.neighbours[near] = Neighbour {
                siemens,
                far: neighbour.far,
                half_edge: neighbour.half_edge,
            };
            return place;
        }
        let end = self.count;
        if end < self.neighbours.len() {
            self.neighbours[end] = neighbour;
            self.count = end + 1;
        }
        end as u16
    }

    /// Orders the neighbours by rising conductance.
    pub(crate) fn order(&mut self)
        ensures { self.new ≡ self.old }
    {
        order_neighbours(self.neighbours.as_mut_slice(), self.count);
    }

    pub(crate) fn neighbours(&self) -> &[Neighbour]
        ensures inside { AreNeighboursInside self.now result.now }
        ensures few { length result.now ≤ MOST_NEIGHBOURS }
    {
        &self.neighbours.as_slice()[..self.count]
    }
}

fn empty_neighbours(alloc: Global, nodes: u16) -> Result<Vec<Neighbour>, OutOfMemory>
    ensures { IfOk result (λ neighbours. AreNeighboursInside nodes neighbours.items × (length neighbours.items ≤ MOST_NEIGHBOURS)) }
{
    let neighbour = Neighbour {
        siemens: 0,
        far: 0,
        half_edge: 0,
    };
    let neighbours = vec![in alloc; neighbour; (nodes as usize).min(MOST_NEIGHBOURS)]?;
    Ok(neighbours)
}
