//! The nodes of a case: how many there are, and their names.
ghost use Rattle.std.specs.Prelude.{◌≡◌, ◌<◌, ◌≤◌, [], ◌∷◌, length, map, MatchOption, slice_index_or};
ghost use Rattle.std.specs.Iterator.{YieldsFirst, item_count};
ghost use Rattle.gic_case.specs.Sound.{IsSound};
ghost use Rattle.gic_case.specs.Lists.{node_names, with_device};
ghost use Rattle.gic_case.specs.NodeNames.{names_left};

use crate::case::Case;
use crate::item::{Bus, Substation, Transformer};
use crate::network::CaseLists;
use gic_base::{Name, NodeId};

/// How many nodes a case has: its substations, its buses, and the transformers that have a neutral device.
pub fn node_count(case: &Case) -> u16
    ensures value { result ≡ length (node_names case.now) }
    ensures sound { IsSound case.now }
{
    case.network().node_count()
}

/// The name of a node of a case.
pub fn node_name(case: &Case, node: NodeId) -> Name
    requires { node.0 < length (node_names case.now) }
    ensures { result ≡ slice_index_or (node_names case.now) node.0 [] }
{
    case.network().node_name(node)
}

/// How many of these transformers have a neutral device.
fn device_count(transformers: &[Transformer]) -> usize
    ensures value { result ≡ length (with_device transformers.now) }
    ensures most { result ≤ length transformers.now }
{
    transformers
        .iter()
        .filter(|transformer| transformer.neutral.is_some())
        .count()
}

impl CaseLists {
    /// How many nodes there are.
    pub fn node_count(&self) -> u16
        ensures { result ≡ length (node_names self.now) }
    {
        let devices = device_count(self.transformers.as_slice());
        (self.substations.len() + self.buses.len() + devices) as u16
    }

    /// The names of all nodes.
    fn node_names(&self) -> NodeNames<'_>
        ensures { names_left result ≡ node_names self.now }
    {
        NodeNames {
            substations: self.substations.as_slice(),
            buses: self.buses.as_slice(),
            transformers: self.transformers.as_slice(),
        }
    }

    /// The name of a node.
    pub fn node_name(&self, node: NodeId) -> Name
        requires { node.0 < length (node_names self.now) }
        ensures { result ≡ slice_index_or (node_names self.now) node.0 [] }
    {
        let mut names = self.node_names();
        for passed in 0..node.0 {
            let _ = names.next();
        }
        match names.next() {
            Some(name) => name,
            None => unreachable!(),
        }
    }
}

/// The names of the nodes in node order, from one on: substations, buses, and then the neutral nodes, which are named as
/// their transformers.
#[derive(Drop)]
pub struct NodeNames<'a> {
    substations: &'a [Substation],
    buses: &'a [Bus],
    transformers: &'a [Transformer],
}

impl<'a> NodeNames<'a> {
    /// The names of all nodes of a case.
    pub fn of(case: &'a Case) -> NodeNames<'a>
        ensures { names_left result ≡ node_names case.now }
    {
        case.network().node_names()
    }
}

/// The first transformer with a neutral device, and those behind it.
fn next_neutral(transformers: &[Transformer]) -> Option<(&Transformer, &[Transformer])>
    ensures { MatchOption result
        (with_device transformers.now ≡ [])
        (λ p. with_device transformers.now ≡ p.0.now ∷ with_device p.1.now) }
{
    let mut left = transformers;
    while let Some((transformer, others)) = left.split_first() {
        if transformer.neutral.is_some() {
            return Some((transformer, others));
        }
        left = others;
    }
    None
}

impl Iterator for NodeNames<'_> {
    type Item = Name;

    ghost next_gives = { YieldsFirst names_left };

    ghost remaining = { item_count names_left };

    fn next(&mut self) -> Option<Name> {
        if let Some((substation, others)) = self.substations.split_first() {
            self.substations = others;
            return Some(substation.name);
        }
        if let Some((bus, others)) = self.buses.split_first() {
            self.buses = others;
            return Some(bus.name);
        }
        let (transformer, others) = next_neutral(self.transformers)?;
        self.transformers = others;
        Some(transformer.name)
    }
}
