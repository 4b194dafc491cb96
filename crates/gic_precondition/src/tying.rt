//! How edges are tied to nodes.
ghost use Rattle.std.specs.Prelude.{ℕ, ◌<◌, length};
ghost use Rattle.gic_precondition.specs.Inside.{AreHalfEdgesInside};

use crate::parts::{HalfEdge, MOST_HALF_EDGES, Vertex};

/// Puts a half-edge in front of a node's list.
fn hang(
    vertices: &mut [Vertex],
    half_edges: &mut [HalfEdge],
    half_edge: u32,
    node: u16,
    far: u16,
    siemens: u64,
)
    requires half_edge { half_edge < length half_edges.old }
    requires node { node < length vertices.old }
    requires far { far < length vertices.old }
    requires inside { AreHalfEdgesInside (length vertices.old) half_edges.old }
    ensures inside { AreHalfEdgesInside (length vertices.new) half_edges.new }
{
    let vertex = &mut vertices[node as usize];
    half_edges[half_edge as usize] = HalfEdge {
        siemens,
        far,
        next: vertex.first,
    };
    vertex.first = half_edge;
    vertex.edges = vertex.edges.saturating_add(1);
}

/// Joins two nodes, by the half-edges from `used` on, where there is space, and says how many are used then.
pub(crate) fn join_vertices(
    vertices: &mut [Vertex],
    half_edges: &mut [HalfEdge],
    used: usize,
    from: u16,
    to: u16,
    siemens: u64,
) -> usize
    requires from { from < length vertices.old }
    requires to { to < length vertices.old }
    requires inside { AreHalfEdgesInside (length vertices.old) half_edges.old }
    ensures inside { AreHalfEdgesInside (length vertices.new) half_edges.new }
{
    if half_edges.len() > MOST_HALF_EDGES
        || used >= half_edges.len()
        || used + 1 >= half_edges.len()
    {
        return used;
    }
    hang(vertices, half_edges, used as u32, from, to, siemens);
    hang(vertices, half_edges, used as u32 + 1, to, from, siemens);
    used + 2
}

/// Makes of the edge of this half-edge, which led to `far`, one from `far` to `other`: the half-edge goes into the list
/// of `other`, and the one beside it, in the list of `far`, leads there.
pub(crate) fn tie_again(
    vertices: &mut [Vertex],
    half_edges: &mut [HalfEdge],
    half_edge: u32,
    far: u16,
    other: u16,
    siemens: u64,
)
    requires far { far < length vertices.old }
    requires other { other < length vertices.old }
    requires inside { AreHalfEdgesInside (length vertices.old) half_edges.old }
    ensures inside { AreHalfEdgesInside (length vertices.new) half_edges.new }
{
    let beside = half_edge as usize ^ 1;
    if half_edge as usize >= half_edges.len() || beside >= half_edges.len() {
        return;
    }
    lead(half_edges, beside, other, siemens);
    hang(vertices, half_edges, half_edge, other, far, siemens);
    count_edge(vertices, far);
}

/// Counts one edge more at a node.
fn count_edge(vertices: &mut [Vertex], node: u16)
    requires { node < length vertices.old }
{
    let vertex = &mut vertices[node as usize];
    vertex.edges = vertex.edges.saturating_add(1);
}

/// Lets a half-edge lead to another node.
fn lead(half_edges: &mut [HalfEdge], half_edge: usize, far: u16, siemens: u64)
    requires { half_edge < length half_edges.old }
    ensures { (nodes : ℕ) → far < nodes → AreHalfEdgesInside nodes half_edges.old → AreHalfEdgesInside nodes half_edges.new }
{
    let next = half_edges[half_edge].next;
    half_edges[half_edge] = HalfEdge { siemens, far, next };
}
