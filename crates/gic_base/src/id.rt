//! Places in the orders of a network.

/// A place in the node order, from 0: the substations, then the buses, then the neutral nodes.
#[derive(Clone, Copy, PartialEq, Eq, Debug)]
pub struct NodeId(pub u16);

/// A place in the list of elements, from 0.
#[derive(Clone, Copy, PartialEq, Eq, Debug)]
pub struct ElementId(pub u16);
