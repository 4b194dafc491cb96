//! Elements at the end of a list.
ghost use Rattle.std.specs.Prelude.{◌≡◌, ◌+◌, ◌<◌, ◌++◌, length, All, OnOk};
ghost use Rattle.gic_case.specs.Sound.{IsSoundLine, IsSoundEnd, IsSoundTransformer};
ghost use Rattle.gic_case.specs.Lists.{end_node, grid_of};
ghost use Rattle.gic_case.specs.Windings.{windings_of};
ghost use Rattle.gic_winding.specs.ElementList.{node, earthing_of, line_of, winding_element, winding_elements, resistor_of};

use crate::element::{earthing, line, resistor, role_of, winding};
use gic_base::{NodeId, OutOfMemory};
use gic_case::{Case, Line, Neutral, Transformer, Winding, WindingEnd, ground_grid};
use gic_model::Element;

/// The node of the bus at a place.
fn bus_node(case: &Case, place: u16) -> NodeId
    requires { place < length case.now.buses }
    ensures { result ≡ node (length case.now.substations + place) }
{
    NodeId(case.substations().len() as u16 + place)
}

/// The earthing of a substation, if it has one.
pub(crate) fn push_earthing(
    list: &mut Vec<Element>,
    place: u16,
    ground: Option<u32>,
) -> Result<(), OutOfMemory>
    ensures { OnOk result (list.new.items ≡ list.old.items ++ earthing_of place ground) }
{
    if let Some(micro_ohm) = ground {
        list.push(earthing(place, micro_ohm))?;
    }
    Ok(())
}

/// A line, if it is not blocked.
pub(crate) fn push_line(
    list: &mut Vec<Element>,
    case: &Case,
    place: u16,
    row: &Line,
) -> Result<(), OutOfMemory>
    requires { IsSoundLine case.now row.now }
    ensures { OnOk result (list.new.items ≡ list.old.items ++ line_of (length case.now.substations) place row.now) }
{
    if row.blocked {
        return Ok(());
    }
    let from = bus_node(case, row.from);
    let to = bus_node(case, row.to);
    list.push(line(place, from, to, row.resistance))?;
    Ok(())
}

/// The node to which a winding runs of a transformer with this neutral.
fn end_node(case: &Case, neutral: NodeId, winding: &Winding) -> NodeId
    requires { IsSoundEnd case.now winding.now.from winding.now.to }
    ensures { result ≡ node (end_node (length case.now.substations) neutral.0 winding.now.to) }
{
    match winding.to {
        WindingEnd::Bus(to) => bus_node(case, to.bus),
        WindingEnd::Neutral => neutral,
    }
}

/// The element of a winding of the transformer at a place, with this neutral.
fn winding_element(case: &Case, place: u16, neutral: NodeId, row: &Winding) -> Element
    requires from { row.now.from.bus < length case.now.buses }
    requires to { IsSoundEnd case.now row.now.from row.now.to }
    ensures { result ≡ winding_element (length case.now.substations) place neutral.0 row.now }
{
    let from = bus_node(case, row.from.bus);
    let to = end_node(case, neutral, row);
    winding(place, role_of(row.role), from, to, row.resistance)
}

/// The windings of a transformer.
pub(crate) fn push_windings(
    list: &mut Vec<Element>,
    case: &Case,
    place: u16,
    neutral: NodeId,
    transformer: &Transformer,
) -> Result<(), OutOfMemory>
    requires { IsSoundTransformer case.now transformer.now }
    ensures { OnOk result (list.new.items ≡
        list.old.items ++ winding_elements (length case.now.substations) place neutral.0 (windings_of transformer.now)) }
{
    let windings = transformer.windings();
    push_elements(list, case, place, neutral, windings.as_slice())
}

/// These windings of the transformer at a place.
fn push_elements(
    list: &mut Vec<Element>,
    case: &Case,
    place: u16,
    neutral: NodeId,
    windings: &[Winding],
) -> Result<(), OutOfMemory>
    requires { All (λ w. (w.from.bus < length case.now.buses) × IsSoundEnd case.now w.from w.to) windings.now }
    ensures { OnOk result (list.new.items ≡ list.old.items ++ winding_elements (length case.now.substations) place neutral.0 windings.now) }
{
    for winding in windings {
        list.push(winding_element(case, place, neutral, winding))?;
    }
    Ok(())
}

/// The resistor in a transformer's neutral, if it has one.
pub(crate) fn push_resistor(
    list: &mut Vec<Element>,
    case: &Case,
    place: u16,
    neutral: NodeId,
    transformer: &Transformer,
) -> Result<(), OutOfMemory>
    requires { IsSoundTransformer case.now transformer.now }
    ensures { OnOk result (list.new.items ≡
        list.old.items ++ resistor_of place neutral.0 (grid_of case.now.buses transformer.now) transformer.now.neutral) }
{
    match transformer.neutral {
        Some(Neutral::Resistor(micro_ohm)) => {
            let grid = ground_grid(case, transformer);
            list.push(resistor(place, neutral, grid, micro_ohm))?;
        }
        Some(Neutral::Blocked) | None => {}
    }
    Ok(())
}
