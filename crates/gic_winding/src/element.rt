//! Single elements.
ghost use Rattle.std.specs.Prelude.{◌≡◌};
ghost use Rattle.gic_winding.specs.ElementList.{earthing, line, winding, resistor, role_of};

use gic_base::NodeId;
use gic_case::WindingRole;
use gic_model::{Element, End, Item, Role};

/// The earthing of the substation at a place: one path from its node to earth.
pub(crate) fn earthing(place: u16, micro_ohm: u32) -> Element
    ensures { result ≡ earthing place micro_ohm }
{
    Element {
        from: NodeId(place),
        to: End::Earth,
        times: 1,
        micro_ohm,
        item: Item::Ground(place),
        role: Role::Ground,
    }
}

/// The line at a place: a path for each of the three phases, from one bus to another.
pub(crate) fn line(place: u16, from: NodeId, to: NodeId, micro_ohm: u32) -> Element
    ensures { result ≡ line place from.0 to.0 micro_ohm }
{
    Element {
        from,
        to: End::Node(to),
        times: 3,
        micro_ohm,
        item: Item::Line(place),
        role: Role::Line,
    }
}

/// A winding of the transformer at a place: a path for each of the three phases.
pub(crate) fn winding(place: u16, role: Role, from: NodeId, to: NodeId, micro_ohm: u32) -> Element
    ensures { result ≡ winding place role from.0 to.0 micro_ohm }
{
    Element {
        from,
        to: End::Node(to),
        times: 3,
        micro_ohm,
        item: Item::Transformer(place),
        role,
    }
}

/// What the element of a winding is.
pub fn role_of(role: WindingRole) -> Role
    ensures { result ≡ role_of role }
{
    match role {
        WindingRole::High => Role::High,
        WindingRole::Low => Role::Low,
        WindingRole::Series => Role::Series,
        WindingRole::Common => Role::Common,
        WindingRole::Third => Role::Third,
    }
}

/// The neutral resistor of the transformer at a place: one path from its neutral node to the ground grid.
pub(crate) fn resistor(place: u16, neutral: NodeId, grid: NodeId, micro_ohm: u32) -> Element
    ensures { result ≡ resistor place neutral.0 grid.0 micro_ohm }
{
    Element {
        from: neutral,
        to: End::Node(grid),
        times: 1,
        micro_ohm,
        item: Item::Neutral(place),
        role: Role::Neutral,
    }
}
