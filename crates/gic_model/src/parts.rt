//! What an element of the network is, and what is switched.
use gic_base::NodeId;

/// Where an element ends: at a node, or at remote earth.
#[derive(Clone, Copy, PartialEq, Eq, Debug)]
pub enum End {
    Node(NodeId),
    Earth,
}

impl End {
    ghost use Rattle.std.specs.Prelude.{◌≡◌};
    ghost use Rattle.gic_model.specs.Earthing.{is_earth};

    /// Whether this is remote earth.
    pub fn is_earth(self) -> bool
        ensures { result ≡ is_earth self }
    {
        match self {
            End::Node(_) => false,
            End::Earth => true,
        }
    }
}

/// What an element is in the case.
#[derive(Clone, Copy, PartialEq, Eq, Debug)]
pub enum Role {
    /// The earthing of a substation.
    Ground,
    /// A line.
    Line,
    /// The winding from the high bus to the neutral.
    High,
    /// The winding from the low bus to the neutral.
    Low,
    /// An autotransformer's winding from the high bus to the low bus.
    Series,
    /// An autotransformer's winding from the low bus to the neutral.
    Common,
    /// The winding from the third bus to the neutral.
    Third,
    /// The resistor in a transformer's neutral.
    Neutral,
}

/// What is switched as one, by its place in the case, from 0.
#[derive(Clone, Copy, PartialEq, Eq, Debug)]
pub enum Item {
    /// The earthing of the substation at this place.
    Ground(u16),
    /// The line at this place.
    Line(u16),
    /// The windings of the transformer at this place, all together.
    Transformer(u16),
    /// The neutral resistor of the transformer at this place.
    Neutral(u16),
}

/// `times` parallel paths of `micro_ohm` micro-ohm each, from a node to an end. Lines and windings have three paths,
/// one a phase; earthings and neutral resistors have one.
#[derive(Clone, Copy, PartialEq, Eq, Debug)]
pub struct Element {
    pub from: NodeId,
    pub to: End,
    pub times: u8,
    pub micro_ohm: u32,
    pub item: Item,
    pub role: Role,
}

impl Element {
    ghost use Rattle.std.specs.Prelude.{◌≡◌, ℕ};
    ghost use Rattle.gic_model.specs.Limits.{IsElementWithin, IsEndWithin};
    ghost use Rattle.gic_model.specs.Standing.{other_end};

    /// The other end of an element that ends at this node.
    pub fn other_end(&self, node: NodeId) -> End
        ensures value { result ≡ other_end node.0 self.now }
        ensures inside { (nodes : ℕ) → IsElementWithin nodes self.now → IsEndWithin nodes result }
    {
        if self.from.0 == node.0 {
            self.to
        } else {
            End::Node(self.from)
        }
    }
}

/// A row of a switching list: from `time` on, in seconds, the item is open (`opens`) or closed.
#[derive(Clone, Copy, PartialEq, Eq, Debug)]
pub struct Switching {
    pub time: u32,
    pub item: Item,
    pub opens: bool,
}
