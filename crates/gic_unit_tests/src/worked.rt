//! A network worked by hand, for tests.
ghost use Rattle.std.specs.Prelude.{◌≡◌, IfOk};
ghost use Rattle.gic_model.specs.WorkedLoop.{loop, node};

use gic_base::{NodeId, OutOfMemory};
use gic_model::{Element, Elements, End, Item, Role};
use std::alloc::Global;

/// The text of the case P, whose elements are the loop: two substations with a transformer each, and a line of 100 km
/// towards the north between them.
pub const CASE_P: &str = "format = 1
zone = [{ name = \"Z\", latitude = 6000, beta = 100 }]
substation = [{ name = \"A\", ground = 1000000 }, { name = \"B\", ground = 1000000 }]
bus = [{ name = \"a\", substation = \"A\" }, { name = \"b\", substation = \"B\" }]
line = [{ name = \"L\", from = \"a\", to = \"b\", zone = \"Z\", resistance = 3000000, north = 100000, east = 0 }]
transformer = [
  { name = \"TA\", kind = \"delta-wye\", high_volts = 345000, high = \"a\", high_resistance = 300000 },
  { name = \"TB\", kind = \"delta-wye\", high_volts = 345000, high = \"b\", high_resistance = 300000 },
]
";

/// The loop of two substations A and B, the nodes 0 and 1, with a ground of 1 ohm each, and two buses a and b, the
/// nodes 2 and 3: a line of 3 ohm a phase joins them, and a winding of 0.3 ohm a phase leads from each to its substation.
/// The elements in order are the two grounds, the line and the two windings.
pub fn worked_loop(alloc: Global) -> Result<Elements, OutOfMemory>
    ensures { IfOk result (λ elements. elements ≡ loop) }
{
    let list = vec![in alloc; ground(0), ground(1), line(), winding(2, 0), winding(3, 1)]?;
    Ok(Elements::new(4, list))
}

fn ground(substation: u16) -> Element
    ensures { result ≡ record { from = node substation; to = End.Earth; times = 1; micro_ohm = 1000000; item = Item.Ground substation; role = Role.Ground } }
{
    Element {
        from: NodeId(substation),
        to: End::Earth,
        times: 1,
        micro_ohm: 1_000_000,
        item: Item::Ground(substation),
        role: Role::Ground,
    }
}

fn line() -> Element
    ensures { result ≡ record { from = node 2; to = End.Node (node 3); times = 3; micro_ohm = 3000000; item = Item.Line 0; role = Role.Line } }
{
    Element {
        from: NodeId(2),
        to: End::Node(NodeId(3)),
        times: 3,
        micro_ohm: 3_000_000,
        item: Item::Line(0),
        role: Role::Line,
    }
}

fn winding(bus: u16, substation: u16) -> Element
    ensures { result ≡ record { from = node bus; to = End.Node (node substation); times = 3; micro_ohm = 300000; item = Item.Transformer substation; role = Role.High } }
{
    Element {
        from: NodeId(bus),
        to: End::Node(NodeId(substation)),
        times: 3,
        micro_ohm: 300_000,
        item: Item::Transformer(substation),
        role: Role::High,
    }
}
