//! What is worked out once of each element.
ghost use Rattle.std.specs.Prelude.{◌≡◌, ◌<◌, map, IfOk};
ghost use Rattle.gic_net.specs.Conductor.{conductor_of};

use gic_base::OutOfMemory;
use gic_fixed::Divisor;
use gic_model::{Element, Elements};
use std::alloc::Global;

/// An element's resistance to divide by, and its conductance in units of 2^-20 siemens, rounded down and up.
#[derive(Clone, Copy)]
pub struct Conductor {
    pub divisor: Divisor,
    pub down: u64,
    pub up: u64,
}

/// The conductor of an element.
pub fn worked_out(element: Element) -> Conductor
    requires { 0 < element.micro_ohm }
    ensures { result ≡ conductor_of element }
{
    let siemens = element.times as u64 * 1_000_000 * 1_048_576;
    Conductor {
        divisor: Divisor::new(element.micro_ohm),
        down: siemens / element.micro_ohm as u64,
        up: siemens.div_ceil(element.micro_ohm as u64),
    }
}

/// The conductors of all elements, by their places.
pub fn conductors(alloc: Global, elements: &Elements) -> Result<Vec<Conductor>, OutOfMemory>
    ensures { IfOk result (λ all. all.items ≡ map conductor_of elements.now.list) }
{
    let mut all = Vec::new(alloc);
    let list = elements.list();
    for element in list {
        all.push(worked_out(*element))?;
    }
    Ok(all)
}
