//! Which items are taken out, and in which order.
ghost use Rattle.std.specs.Prelude.{◌≡◌, IfOk};
ghost use Rattle.gic_outage.specs.Plan.{in_order, plan_of};

use gic_base::OutOfMemory;
use gic_case::Case;
use gic_model::Item;
use std::alloc::Global;

/// A given number of lines, and then a given number of transformers.
#[tactic(auto, using(crate::proofs::Planned::line_more, crate::proofs::Planned::lines_done, crate::proofs::Planned::transformer_more))]
fn in_order(alloc: Global, lines: u16, transformers: u16) -> Result<Vec<Item>, OutOfMemory>
    ensures { IfOk result (λ items. items.items ≡ in_order lines transformers) }
{
    let mut items = Vec::new(alloc);
    for place in 0..lines {
        items.push(Item::Line(place))?;
    }
    for place in 0..transformers {
        items.push(Item::Transformer(place))?;
    }
    Ok(items)
}

/// Each line and then each transformer of a case, in the order of the case.
pub(crate) fn plan(alloc: Global, case: &Case) -> Result<Vec<Item>, OutOfMemory>
    ensures { IfOk result (λ items. items.items ≡ plan_of case.now) }
{
    let lines = case.lines().len() as u16;
    let transformers = case.transformers().len() as u16;
    in_order(alloc, lines, transformers)
}
