//! The elimination of a node.
use crate::dividing::Whole;
use crate::draws::Draws;
use crate::factors::Factors;
use crate::gathering::gather;
use crate::graph::Graph;
use crate::neighbourhood::Neighbourhood;
use crate::ordering::{conductance_of, drawn};
use crate::parts::{Neighbour, Wire};
use gic_base::{NodeId, OutOfMemory};
use gic_model::End;
use std::alloc::Global;
use std::marker::Model;

/// What an elimination works on: the graph of the nodes that are left, and the factors so far. It is seen as the number of
/// nodes.
pub struct Elimination {
    graph: Graph,
    neighbourhood: Neighbourhood,
    factors: Factors,
    draws: Draws,
}

impl Model for Elimination {
    ghost use Rattle.std.specs.Prelude.{ℕ, ◌≡◌};

    ghost Value = { ℕ };

    ghost view = { λ e. e.graph };

    ghost invariant = { λ e. (e.neighbourhood ≡ e.graph) × (e.factors ≡ e.graph) };
}

impl Drop for Elimination {
    /// Lets go of everything, in one step for whoever drops it.
    fn drop(self) {
        let Elimination {
            graph: _graph,
            neighbourhood: _neighbourhood,
            factors: _factors,
            draws: _draws,
        } = self;
    }
}

ghost use Rattle.std.specs.Prelude.{◌≡◌, ◌<◌, IfOk};
ghost use Rattle.gic_precondition.specs.Inside.{AreNeighboursInside, IsWireInside};

impl Elimination {
    /// For a network of this many nodes and elements.
    pub(crate) fn new(alloc: Global, nodes: u16, elements: u16) -> Result<Elimination, OutOfMemory>
        ensures { IfOk result (λ elimination. elimination ≡ nodes) }
    {
        let graph = Graph::new(alloc, nodes, elements)?;
        let neighbourhood = Neighbourhood::new(alloc, nodes)?;
        let factors = Factors::new(alloc, nodes, elements)?;
        Ok(Elimination {
            graph,
            neighbourhood,
            factors,
            draws: Draws::new(),
        })
    }

    /// Begins with nodes that no element joins.
    pub(crate) fn begin(&mut self)
        ensures { self.new ≡ self.old }
    {
        self.graph.clear();
        self.factors.clear();
        self.draws = Draws::new();
    }

    /// Joins the ends of a wire.
    pub(crate) fn put(&mut self, wire: &Wire)
        requires { IsWireInside self.old wire.now }
        ensures { self.new ≡ self.old }
    {
        match wire.to {
            End::Node(to) => self.graph.join(wire.from, to.0, wire.siemens),
            End::Earth => self.graph.earth(wire.from, wire.siemens),
        }
    }

    /// How many edges a node has to nodes that are left.
    pub(crate) fn edges(&self, node: u16) -> u16
        requires { node < self.now }
    {
        self.graph.edges(node)
    }

    /// Eliminates a node. Of the clique of its neighbours one edge less is left than there are neighbours, and what it
    /// has to earth is spread over them.
    pub(crate) fn eliminate(&mut self, node: u16)
        requires { node < self.old }
        ensures { self.new ≡ self.old }
    {
        gather(&mut self.graph, node, &mut self.neighbourhood);
        self.graph.drop_node(node);
        self.neighbourhood.order();
        let earthing = self.graph.earthing(node);
        let joined = conductance_of(self.neighbourhood.neighbours());
        let conductance = joined.saturating_add(earthing);
        let whole = Whole::new(conductance);
        self.factors
            .add(node, self.neighbourhood.neighbours(), conductance);
        spread(
            &mut self.graph,
            self.neighbourhood.neighbours(),
            &whole,
            earthing,
        );
        sample_clique(
            &mut self.graph,
            self.neighbourhood.neighbours(),
            &whole,
            joined,
            &mut self.draws,
        );
    }

    pub(crate) fn factors(&self) -> &Factors
        ensures { result.now ≡ self.now }
    {
        &self.factors
    }
}

/// Spreads what the eliminated node has to earth over its neighbours.
fn spread(graph: &mut Graph, neighbours: &[Neighbour], whole: &Whole, earthing: u64)
    requires { AreNeighboursInside graph.old neighbours.now }
    ensures { graph.new ≡ graph.old }
{
    for neighbour in neighbours {
        graph.earth(neighbour.far, whole.part(neighbour.siemens, earthing));
    }
}

/// Samples the clique that the elimination leaves: joins each neighbour but the last to a later one, drawn in
/// proportion to conductance, with what it has towards all later ones together.
fn sample_clique(
    graph: &mut Graph,
    neighbours: &[Neighbour],
    whole: &Whole,
    joined: u64,
    draws: &mut Draws,
)
    requires { AreNeighboursInside graph.old neighbours.now }
    ensures { graph.new ≡ graph.old }
{
    let mut later = joined;
    for next in 1..neighbours.len() {
        let neighbour = neighbours[next - 1];
        later = later.saturating_sub(neighbour.siemens);
        if let Some(other) = drawn(neighbours, next, draws.below(later)) {
            graph.tie(
                neighbour.half_edge,
                neighbour.far,
                other.far,
                whole.part(neighbour.siemens, later),
            );
        }
    }
}
