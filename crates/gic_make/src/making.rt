//! Made cases.
ghost use Rattle.std.specs.Prelude.{◌≡◌, ◌-◌, ◌≤◌, map, length, IfOk};
ghost use Rattle.std.specs.List.{range_with_len};
ghost use Rattle.gic_make.specs.Generator.{states_after};
ghost use Rattle.gic_make.specs.MadeCase.{first_draw, made_substation, made_bus, made_transformer, made_line, made_case};

use crate::generator::states_after;
use crate::site::{bus, first_draw, line, substation, transformer, zone};
use gic_base::OutOfMemory;
use gic_case::{Bus, Case, Line, Substation, Transformer};
use std::alloc::Global;

/// The fewest sites of a made case.
pub const LEAST_SIZE: u16 = 2;

/// The most sites of a made case.
pub const MOST_SIZE: u16 = 1000;

/// The case that the generator makes from a seed, of `size` sites from `LEAST_SIZE` to `MOST_SIZE`.
#[tactic(auto, using(crate::proofs::States::enough))]
pub fn make_case(alloc: Global, seed: u32, size: u16) -> Result<Case, OutOfMemory>
    requires least { LEAST_SIZE ≤ size }
    requires most { size ≤ MOST_SIZE }
    ensures { IfOk result (λ case. case ≡ made_case seed size) }
{
    let states = states_of(alloc, seed, size)?;
    let states = states.as_slice();
    let zones = vec![in alloc; zone()]?;
    let substations = substations(alloc, states, size)?;
    let buses = buses(alloc, size)?;
    let lines = lines(alloc, states, size)?;
    let transformers = transformers(alloc, states, size)?;
    Ok(Case::from_parts(zones, substations, buses, lines, transformers))
}

/// The states of a case's draws.
fn states_of(alloc: Global, seed: u32, size: u16) -> Result<Vec<u32>, OutOfMemory>
    ensures { IfOk result (λ states. states.items ≡ states_after seed (first_draw size)) }
{
    states_after(alloc, seed, first_draw(size))
}

/// The substations of the sites.
fn substations(alloc: Global, states: &[u32], size: u16) -> Result<Vec<Substation>, OutOfMemory>
    requires { first_draw size ≤ length states.now }
    ensures { IfOk result (λ list. list.items ≡ map (made_substation states.now) (range_with_len 0 size)) }
{
    Ok(
        (0..size)
            .map(|site| substation(states, site))
            .collect(alloc)?,
    )
}

/// Their buses.
fn buses(alloc: Global, size: u16) -> Result<Vec<Bus>, OutOfMemory>
    ensures { IfOk result (λ list. list.items ≡ map made_bus (range_with_len 0 size)) }
{
    Ok((0..size).map(|site| bus(site)).collect(alloc)?)
}

/// Their transformers.
fn transformers(alloc: Global, states: &[u32], size: u16) -> Result<Vec<Transformer>, OutOfMemory>
    requires { first_draw size ≤ length states.now }
    ensures { IfOk result (λ list. list.items ≡ map (made_transformer states.now) (range_with_len 0 size)) }
{
    Ok(
        (0..size)
            .map(|site| transformer(states, site))
            .collect(alloc)?,
    )
}

/// The lines of the sites behind the first.
fn lines(alloc: Global, states: &[u32], size: u16) -> Result<Vec<Line>, OutOfMemory>
    requires { first_draw size ≤ length states.now }
    ensures { IfOk result (λ list. list.items ≡ map (made_line states.now) (range_with_len 1 (size - 1))) }
{
    Ok((1..size).map(|site| line(states, site)).collect(alloc)?)
}
