//! The edges between the nodes that are left.
use crate::parts::{HALF_EDGES_PER_ELEMENT, HalfEdge, NO_HALF_EDGE, Vertex};
use crate::tying::{join_vertices, tie_again};
use gic_base::OutOfMemory;
use gic_base::limits::MOST_AT_A_NODE;
use std::alloc::Global;
use std::marker::Model;

/// The edges between the nodes that are left, and what these have to earth. It is seen as the number of nodes.
pub struct Graph {
    vertices: Vec<Vertex>,
    /// The half-edges that are in use, and space for others. No edge needs more: a new one takes the half-edges of an
    /// old one.
    half_edges: Vec<HalfEdge>,
    used: usize,
}

impl Model for Graph {
    ghost use Rattle.std.specs.Prelude.{ℕ, length};
    ghost use Rattle.gic_precondition.specs.Inside.{AreHalfEdgesInside};

    ghost Value = { ℕ };

    ghost view = { λ w. length w.vertices.items };

    ghost invariant = { λ w. AreHalfEdgesInside (length w.vertices.items) w.half_edges.items };
}

impl Drop for Graph {
    /// Lets go of everything, in one step for whoever drops it.
    fn drop(self) {
        let Graph {
            vertices: _vertices,
            half_edges: _half_edges,
            used: _used,
        } = self;
    }
}

ghost use Rattle.std.specs.Prelude.{◌≡◌, ◌+◌, ◌<◌, ◌≤◌, IfOk, IfSome, length};
ghost use Rattle.gic_precondition.specs.declared.parts.HalfEdge.{HalfEdge};
ghost use Rattle.gic_precondition.specs.Inside.{AreHalfEdgesInside};

impl Graph {
    /// For a network of this many nodes and elements, with space for the half-edges of all edges.
    pub(crate) fn new(alloc: Global, nodes: u16, elements: u16) -> Result<Graph, OutOfMemory>
        ensures { IfOk result (λ graph. graph ≡ nodes) }
    {
        let vertices = isolated_vertices(alloc, nodes)?;
        let half_edges = empty_half_edges(alloc, nodes, elements)?;
        Ok(Graph {
            vertices,
            half_edges,
            used: 0,
        })
    }

    /// Takes all edges away. All nodes are left.
    pub(crate) fn clear(&mut self)
        ensures { self.new ≡ self.old }
    {
        self.vertices.fill(ISOLATED);
        self.used = 0;
    }

    /// Joins two nodes by an edge, where there is space.
    pub(crate) fn join(&mut self, from: u16, to: u16, siemens: u64)
        requires from { from < self.old }
        requires to { to < self.old }
        ensures { self.new ≡ self.old }
    {
        self.used = join_vertices(
            self.vertices.as_mut_slice(),
            self.half_edges.as_mut_slice(),
            self.used,
            from,
            to,
            siemens,
        );
    }

    /// Makes of the edge of this half-edge, which led from a node that is eliminated to `far`, one from `far` to `other`.
    pub(crate) fn tie(&mut self, half_edge: u32, far: u16, other: u16, siemens: u64)
        requires far { far < self.old }
        requires other { other < self.old }
        ensures { self.new ≡ self.old }
    {
        tie_again(
            self.vertices.as_mut_slice(),
            self.half_edges.as_mut_slice(),
            half_edge,
            far,
            other,
            siemens,
        );
    }

    /// Adds to what a node has to earth.
    pub(crate) fn earth(&mut self, node: u16, siemens: u64)
        requires { node < self.old }
        ensures { self.new ≡ self.old }
    {
        let vertex = &mut self.vertices[node as usize];
        vertex.earthing = vertex.earthing.saturating_add(siemens);
    }

    /// What a node has to earth.
    pub(crate) fn earthing(&self, node: u16) -> u64
        requires { node < self.now }
    {
        self.vertices[node as usize].earthing
    }

    /// How many edges a node has to nodes that are left.
    pub(crate) fn edges(&self, node: u16) -> u16
        requires { node < self.now }
    {
        self.vertices[node as usize].edges
    }

    /// Counts one edge less at a node.
    pub(crate) fn loosen(&mut self, node: u16)
        requires { node < self.old }
        ensures { self.new ≡ self.old }
    {
        let vertex = &mut self.vertices[node as usize];
        vertex.edges = vertex.edges.saturating_sub(1);
    }

    /// Whether a node is eliminated.
    pub(crate) fn is_gone(&self, node: u16) -> bool
        requires { node < self.now }
    {
        self.vertices[node as usize].gone
    }

    /// Says that a node is eliminated.
    pub(crate) fn drop_node(&mut self, node: u16)
        requires { node < self.old }
        ensures { self.new ≡ self.old }
    {
        self.vertices[node as usize].gone = true;
    }

    /// Where a node stood in the last neighbourhood that it was in.
    pub(crate) fn place(&self, node: u16) -> u16
        requires { node < self.now }
    {
        self.vertices[node as usize].place
    }

    /// Notes where a node stands in a neighbourhood.
    pub(crate) fn set_place(&mut self, node: u16, place: u16)
        requires { node < self.old }
        ensures { self.new ≡ self.old }
    {
        self.vertices[node as usize].place = place;
    }

    /// The number of the first half-edge in a node's list, [`NO_HALF_EDGE`] where there is none.
    pub(crate) fn first(&self, node: u16) -> u32
        requires { node < self.now }
    {
        self.vertices[node as usize].first
    }

    /// A half-edge, unless the number says that there is none.
    pub(crate) fn half_edge(&self, half_edge: u32) -> Option<HalfEdge>
        ensures { IfSome result (λ half_edge. half_edge.far < self.now) }
    {
        let half_edge = half_edge as usize;
        if half_edge < self.half_edges.len() {
            Some(self.half_edges[half_edge])
        } else {
            None
        }
    }
}

/// A node with no edge.
const ISOLATED: Vertex = Vertex {
    earthing: 0,
    first: NO_HALF_EDGE,
    edges: 0,
    place: 0,
    gone: false,
};

fn isolated_vertices(alloc: Global, nodes: u16) -> Result<Vec<Vertex>, OutOfMemory>
    ensures { IfOk result (λ vertices. length vertices.items ≡ nodes) }
{
    let vertices = vec![in alloc; ISOLATED; nodes as usize]?;
    Ok(vertices)
}

fn empty_half_edges(alloc: Global, nodes: u16, elements: u16) -> Result<Vec<HalfEdge>, OutOfMemory>
    ensures { IfOk result (λ half_edges. AreHalfEdgesInside nodes half_edges.items) }
{
    let half_edge = HalfEdge {
        siemens: 0,
        far: 0,
        next: NO_HALF_EDGE,
    };
    let most = MOST_AT_A_NODE * nodes as usize;
    let half_edges = vec![in alloc; half_edge; (HALF_EDGES_PER_ELEMENT * elements as usize).min(
        most
    )]?;
    Ok(half_edges)
}
