//! What is known of a node, and what a certificate writes of it and of the field.
use gic_base::Name;

/// The northward and the eastward part of a uniform field in mV/km.
#[derive(Clone, Copy, Debug)]
pub(crate) struct Field {
    pub(crate) north: i32,
    pub(crate) east: i32,
}

/// A node's name, and whether the node is live.
#[derive(Clone, Copy, Debug)]
pub(crate) struct NodeName {
    pub(crate) name: Name,
    pub(crate) live: bool,
}

/// What is written of a node: its entry, and its guess and its radius in grains; 0 in each where the node is dead.
#[derive(Clone, Copy, Debug)]
pub(crate) struct NodeRow {
    pub(crate) entry: u16,
    pub(crate) guess: i128,
    pub(crate) radius: u128,
}
