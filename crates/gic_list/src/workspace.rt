//! What the mode takes memory for.
ghost use Rattle.std.specs.Prelude.{IfOk};
ghost use Rattle.gic_list.specs.Made.{IsMadeFor};

use gic_base::OutOfMemory;
use gic_inputs::Inputs;
use gic_model::Elements;
use gic_text::LineBuilder;
use gic_winding::elements;
use std::alloc::Global;

/// All that the mode takes memory for.
#[derive(Drop)]
pub struct Workspace {
    pub(crate) line: LineBuilder,
    pub(crate) elements: Elements,
}

/// The workspace for the elements of the case.
pub fn make_workspace(alloc: Global, inputs: &Inputs<()>) -> Result<Workspace, OutOfMemory>
    ensures { IfOk result (IsMadeFor inputs.now) }
{
    let line = LineBuilder::new(alloc)?;
    let elements = elements(alloc, &inputs.case)?;
    Ok(Workspace { line, elements })
}
