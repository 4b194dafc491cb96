//! The parts that lists are made of.
ghost use Rattle.std.specs.Prelude.{◌^◌, ◌≤◌, ◌<◌};

use gic_base::limits::MOST_ELEMENTS_BEFORE_FORMAT_3;
use gic_model::End;

/// The half-edges that an element makes: those of one edge.
pub const HALF_EDGES_PER_ELEMENT: usize = 2;

/// The half-edges of all edges, at most, since the numbers of elements have 16 bits.
pub const MOST_HALF_EDGES: usize = HALF_EDGES_PER_ELEMENT * u16::MAX as usize;

/// The entries of the factors for which there is space, for each element: what is left out makes a correction rougher.
pub const ENTRIES_PER_ELEMENT: usize = 4;

/// The entries for which there is space all the same in a smaller network: those for the most elements of a case of
/// format 1 or 2.
pub const LEAST_ENTRIES: usize = ENTRIES_PER_ELEMENT * MOST_ELEMENTS_BEFORE_FORMAT_3;

/// The entries of the factors, at most.
pub const MOST_ENTRIES: usize = ENTRIES_PER_ELEMENT * u16::MAX as usize;

/// The neighbours of a node, at most.
pub const MOST_NEIGHBOURS: usize = 512;

/// Where a list of half-edges ends.
pub const NO_HALF_EDGE: u32 = u32::MAX;

/// A standing element: its ends, and its conductance in units of 2^-36 siemens.
#[derive(Clone, Copy, PartialEq)]
pub struct Wire {
    pub siemens: u64,
    pub from: u16,
    pub to: End,
    ghost small: { siemens ≤ 2 ^ 48 },
}

/// Half of an edge, in the list of the node at one end: the node at the other end, the edge's conductance in units of
/// 2^-36 siemens, and the next half-edge of the list. The two halves of an edge lie side by side, the first at an even
/// place.
#[derive(Clone, Copy)]
pub struct HalfEdge {
    pub siemens: u64,
    pub far: u16,
    pub next: u32,
}

/// A node of the graph: its list of half-edges, how many of them lead to nodes that are left, where it stood in the
/// last neighbourhood that it was in, whether it is eliminated, and what it has to earth in units of 2^-36 siemens.
#[derive(Clone, Copy)]
pub struct Vertex {
    pub earthing: u64,
    pub first: u32,
    pub edges: u16,
    pub place: u16,
    pub gone: bool,
}

/// A neighbour of a node that is eliminated: its number, a half-edge that leads there, and its conductance in units of
/// 2^-36 siemens.
#[derive(Clone, Copy)]
pub struct Neighbour {
    pub siemens: u64,
    pub far: u16,
    pub half_edge: u32,
}

/// A node's elimination: 1 over its conductance, which is `inverse / 2 ^ bits`, and where its entries begin and end.
#[derive(Clone, Copy)]
pub struct Step {
    pub inverse: u64,
    pub start: u32,
    pub end: u32,
    pub node: u16,
    pub bits: u8,
    ghost small: { inverse ≤ 2 ^ 62 },
    ghost few_bits: { bits < 128 },
}

/// What a far end has of a node's current, in units of 2^-32.
#[derive(Clone, Copy)]
pub struct Entry {
    pub share: u32,
    pub far: u16,
}
