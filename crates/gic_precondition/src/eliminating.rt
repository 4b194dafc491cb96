//! The order in which nodes are eliminated: by rising number of edges.
ghost use Rattle.std.specs.Prelude.{◌≡◌, ◌<◌, ◌≤◌, length};
ghost use Rattle.gic_precondition.specs.Inside.{AreNodes, AreWiresInside};

use crate::elimination::Elimination;
use crate::parts::Wire;

/// The number of edges up to which an elimination is exact.
const EXACT: u16 = 2;

/// Joins the ends of all wires.
fn put_all(elimination: &mut Elimination, wires: &[Wire])
    requires { AreWiresInside elimination.old wires.now }
    ensures { elimination.new ≡ elimination.old }
{
    elimination.begin();
    for wire in wires {
        elimination.put(wire);
    }
}

/// Eliminates those of the first `left` nodes of the list with so few edges, keeps the others in front, and says how many
/// these are.
fn pass(elimination: &mut Elimination, list: &mut [u16], left: usize, edges: u16) -> usize
    requires left { left ≤ length list.old }
    requires nodes { AreNodes elimination.old list.old }
    ensures same { elimination.new ≡ elimination.old }
    ensures left { result ≤ length list.new }
    ensures nodes { AreNodes elimination.new list.new }
{
    let mut kept = 0;
    for place in 0..left {
        let node = list[place];
        if elimination.edges(node) <= edges {
            elimination.eliminate(node);
        } else {
            list[kept] = node;
            kept += 1;
        }
    }
    kept
}

/// The least number of edges of these nodes.
fn least_edges(elimination: &Elimination, list: &[u16]) -> u16
    requires { AreNodes elimination.now list.now }
{
    let mut least = u16::MAX;
    for node in list {
        least = least.min(elimination.edges(*node));
    }
    least
}

/// Eliminates all nodes of the list from a network of these wires.
pub(crate) fn eliminate_all(elimination: &mut Elimination, wires: &[Wire], list: &mut [u16])
    requires wires { AreWiresInside elimination.old wires.now }
    requires nodes { AreNodes elimination.old list.old }
    ensures same { elimination.new ≡ elimination.old }
    ensures nodes { AreNodes elimination.new list.new }
{
    put_all(elimination, wires);
    let mut left = list.len();
    let mut edges = EXACT;
    for _ in 0..list.len() {
        left = pass(elimination, list, left, edges);
        if left == 0 {
            return;
        }
        edges = least_edges(elimination, &list[..left]).max(EXACT);
    }
}
