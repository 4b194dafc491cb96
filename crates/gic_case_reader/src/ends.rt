//! The nodes at which windings and neutral resistors end.
ghost use Rattle.std.specs.Prelude.{◌≡◌, ◌<◌, ◌^◌, ◌++◌, flat_map, OnOk};
ghost use Rattle.gic_case.specs.Lists.{grid_of, end_node, winding_ends, device_ends};
ghost use Rattle.gic_case.specs.Windings.{windings_of};

use gic_case::{Bus, Neutral, Transformer, Winding, WindingEnd, grid_of};
use std::alloc::AllocError;

/// The node to which a winding runs of a transformer with this neutral.
fn end_node(first_bus: u32, neutral: u32, to: WindingEnd) -> u32
    requires { first_bus < 2 ^ 16 }
    ensures { result ≡ end_node first_bus neutral to }
{
    match to {
        WindingEnd::Bus(to) => first_bus + u32::from(to.bus),
        WindingEnd::Neutral => neutral,
    }
}

/// Adds the nodes at which these windings of a transformer end.
fn push_ends_of_windings(
    ends: &mut Vec<u32>,
    first_bus: u32,
    neutral: u32,
    windings: &[Winding],
) -> Result<(), AllocError>
    requires { first_bus < 2 ^ 16 }
    ensures { OnOk result (ends.new.items ≡ ends.old.items ++ winding_ends first_bus neutral windings.now) }
{
    for winding in windings {
        ends.push(first_bus + u32::from(winding.from.bus))?;
        ends.push(end_node(first_bus, neutral, winding.to))?;
    }
    Ok(())
}

/// Adds the nodes at which the windings of the transformers end.
pub(crate) fn push_winding_ends(
    ends: &mut Vec<u32>,
    first_bus: u32,
    neutrals: &[(u16, Transformer)],
) -> Result<(), AllocError>
    requires { first_bus < 2 ^ 16 }
    ensures { OnOk result (ends.new.items ≡ ends.old.items ++ flat_map (λ p. winding_ends first_bus p.0 (windings_of p.1)) neutrals.now) }
{
    for (neutral, transformer) in neutrals {
        let windings = transformer.windings();
        push_ends_of_windings(ends, first_bus, u32::from(*neutral), windings.as_slice())?;
    }
    Ok(())
}

/// Adds the nodes at which a neutral resistor ends.
fn push_ends_of_device(
    ends: &mut Vec<u32>,
    neutral: u32,
    grid: u32,
    device: Option<Neutral>,
) -> Result<(), AllocError>
    ensures { OnOk result (ends.new.items ≡ ends.old.items ++ device_ends neutral grid device) }
{
    match device {
        Some(Neutral::Resistor(_)) => ends.extend_from_slice(&[neutral, grid]),
        Some(Neutral::Blocked) | None => Ok(()),
    }
}

/// Adds the nodes at which the neutral resistors of the transformers end.
pub(crate) fn push_device_ends(
    ends: &mut Vec<u32>,
    buses: &[Bus],
    neutrals: &[(u16, Transformer)],
) -> Result<(), AllocError>
    ensures { OnOk result (ends.new.items ≡
        ends.old.items ++ flat_map (λ p. device_ends p.0 (grid_of buses.now p.1) p.1.neutral) neutrals.now) }
{
    for (neutral, transformer) in neutrals {
        let grid = u32::from(grid_of(buses, transformer));
        push_ends_of_device(ends, u32::from(*neutral), grid, transformer.neutral)?;
    }
    Ok(())
}
