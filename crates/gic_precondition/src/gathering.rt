//! How the neighbours of a node are gathered.
ghost use Rattle.std.specs.Prelude.{◌≡◌, ◌<◌};

use crate::graph::Graph;
use crate::neighbourhood::Neighbourhood;
use crate::parts::{HalfEdge, MOST_HALF_EDGES, Neighbour};

/// Takes a half-edge of a node's list as one to a neighbour.
fn take(graph: &mut Graph, neighbourhood: &mut Neighbourhood, place: u32, half_edge: HalfEdge)
    requires far { half_edge.far < graph.old }
    requires neighbourhood { neighbourhood.old ≡ graph.old }
    ensures graph { graph.new ≡ graph.old }
    ensures neighbourhood { neighbourhood.new ≡ neighbourhood.old }
{
    let neighbour = Neighbour {
        siemens: half_edge.siemens,
        far: half_edge.far,
        half_edge: place,
    };
    graph.loosen(half_edge.far);
    let stands = neighbourhood.add(graph.place(half_edge.far), neighbour);
    graph.set_place(half_edge.far, stands);
}

/// Gathers the edges of a node to those that are left, which count one edge less then.
pub(crate) fn gather(graph: &mut Graph, node: u16, neighbourhood: &mut Neighbourhood)
    requires node { node < graph.old }
    requires neighbourhood { neighbourhood.old ≡ graph.old }
    ensures graph { graph.new ≡ graph.old }
    ensures neighbourhood { neighbourhood.new ≡ neighbourhood.old }
{
    neighbourhood.clear();
    let mut place = graph.first(node);
    for _ in 0..MOST_HALF_EDGES {
        let Some(half_edge) = graph.half_edge(place) else {
            return;
        };
        if !graph.is_gone(half_edge.far) {
            take(graph, neighbourhood, place, half_edge);
        }
        place = half_edge.next;
    }
}
