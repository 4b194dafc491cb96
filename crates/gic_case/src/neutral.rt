//! The ground grids and the neutrals of transformers.
ghost use Rattle.std.specs.Prelude.{◌≡◌, ◌≤◌, if◌then◌else◌, is_some, IfOk, All, vec_len};
ghost use Rattle.gic_case.specs.Sound.{IsSoundTransformer};
ghost use Rattle.gic_case.specs.Lists.{substation_at, grid_of, neutrals_of};

use crate::case::Case;
use crate::item::{Bus, Transformer};
use crate::network::CaseLists;
use gic_base::limits::MOST_TRANSFORMERS;
use gic_base::{NodeId, OutOfMemory};
use std::alloc::{AllocError, Global};

/// The ground grid of a transformer of a case: the node of the substation of its buses. A unit without windings, which has
/// no bus, counts as at the first node.
pub fn ground_grid(case: &Case, transformer: &Transformer) -> NodeId
    ensures { result.0 ≡ grid_of case.now.buses transformer.now }
{
    NodeId(grid_of(case.buses(), transformer))
}

/// Each transformer of a case with the node of its neutral, in transformer order: a node of its own, after the buses,
/// where it has a neutral device, and its ground grid otherwise. Each is sound.
pub fn neutrals(alloc: Global, case: &Case) -> Result<Vec<(u16, Transformer)>, OutOfMemory>
    ensures value { IfOk result (λ v. v.items ≡ neutrals_of case.now) }
    ensures few { IfOk result (λ v. vec_len v ≤ MOST_TRANSFORMERS) }
    ensures sound { IfOk result (λ v. All (λ p. IsSoundTransformer case.now p.1) v.items) }
{
    let neutrals = case.network().neutrals(alloc)?;
    Ok(neutrals)
}

/// The place of the substation of a bus, or 0 past the last bus.
pub fn substation_at(buses: &[Bus], place: u16) -> u16
    ensures { result ≡ substation_at buses.now place }
{
    match buses.get(usize::from(place)) {
        Some(bus) => bus.substation,
        None => 0,
    }
}

/// The ground grid of a transformer: the substation of the bus of its first winding. A unit without windings counts as at
/// the first node.
pub fn grid_of(buses: &[Bus], transformer: &Transformer) -> u16
    ensures { result ≡ grid_of buses.now transformer.now }
{
    let windings = transformer.windings();
    match windings.as_slice().first() {
        Some(winding) => substation_at(buses, winding.from.bus),
        None => 0,
    }
}

/// The node of a transformer's neutral: its own with a neutral device, its ground grid without one.
fn neutral_of(buses: &[Bus], own: u16, transformer: &Transformer) -> u16
    ensures { result ≡ (if is_some transformer.now.neutral then own else grid_of buses.now transformer.now) }
{
    if transformer.neutral.is_some() {
        own
    } else {
        grid_of(buses, transformer)
    }
}

impl CaseLists {
    /// Each transformer with the node of its neutral.
    pub fn neutrals(&self, alloc: Global) -> Result<Vec<(u16, Transformer)>, AllocError>
        ensures { IfOk result (λ v. v.items ≡ neutrals_of self.now) }
    {
        let buses = self.buses.as_slice();
        let mut neutrals = Vec::new(alloc);
        let mut own = (self.substations.len() + buses.len()) as u16;
        for transformer in &self.transformers {
            neutrals.push((neutral_of(buses, own, transformer), *transformer))?;
            own += u16::from(transformer.neutral.is_some());
        }
        Ok(neutrals)
    }
}
