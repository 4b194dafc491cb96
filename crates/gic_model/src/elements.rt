//! The list of the elements.
use crate::parts::Element;
use std::marker::Model;

/// The elements of a network, over a number of nodes: at most `MOST_NODES` nodes and `MOST_ELEMENTS` elements, at most
/// `MOST_AT_A_NODE` elements at a node, each between two different ends, with one or three paths of 1000 to 1000000000
/// micro-ohm.
#[derive(Drop)]
pub struct Elements {
    nodes: u16,
    list: Vec<Element>,
}

impl Model for Elements {
    ghost use Rattle.gic_model.specs.Network.{Network};
    ghost use Rattle.gic_model.specs.Limits.{IsWithinLimits};

    ghost Value = { Network };

    ghost view = { λ e. record { nodes = e.nodes; list = e.list.items } };

    ghost invariant = { λ e. IsWithinLimits (record { nodes = e.nodes; list = e.list.items }) };
}

impl Elements {
    ghost use Rattle.std.specs.Prelude.{◌≡◌, length};
    ghost use Rattle.gic_model.specs.Limits.{IsWithinLimits};

    /// The elements of this list, over this many nodes.
    pub fn new(nodes: u16, list: Vec<Element>) -> Elements
        requires { IsWithinLimits (record { nodes = nodes; list = list.items }) }
        ensures { result ≡ record { nodes = nodes; list = list.items } }
    {
        Elements { nodes, list }
    }

    /// The network is within the limits. The call computes nothing: it brings this fact to where it stands.
    pub fn within_limits(&self)
        ensures { IsWithinLimits self.now }
    {
        let _ = &self.nodes;
    }

    /// How many nodes there are.
    pub fn nodes(&self) -> u16
        ensures value { result ≡ self.now.nodes }
        ensures limits { IsWithinLimits self.now }
    {
        self.nodes
    }

    /// How many elements there are.
    pub fn count(&self) -> u16
        ensures value { result ≡ length self.now.list }
        ensures limits { IsWithinLimits self.now }
    {
        self.list.len() as u16
    }

    /// The elements, by their places.
    pub fn list(&self) -> &[Element]
        ensures value { result.now ≡ self.now.list }
        ensures limits { IsWithinLimits self.now }
    {
        self.list.as_slice()
    }
}
