//! What the mode takes memory for.
ghost use Rattle.std.specs.Prelude.{IfOk};
ghost use Rattle.gic_criteria.specs.Ranges.{IsWithinField};
ghost use Rattle.gic_volts.specs.Made.{IsMadeFor};

use crate::lines::line_volts;
use gic_base::OutOfMemory;
use gic_criteria::UniformField;
use gic_inputs::Inputs;
use gic_text::LineBuilder;
use std::alloc::Global;

/// All that the mode takes memory for.
#[derive(Drop)]
pub struct Workspace {
    pub(crate) line: LineBuilder,
    /// The voltage of each line of the case in nanovolts.
    pub(crate) nanovolts: Vec<i64>,
}

/// The workspace for the voltages of the lines of the case.
pub fn make_workspace(
    alloc: Global,
    inputs: &Inputs<UniformField>,
) -> Result<Workspace, OutOfMemory>
    requires { IsWithinField inputs.now.question }
    ensures { IfOk result (IsMadeFor inputs.now) }
{
    let line = LineBuilder::new(alloc)?;
    let nanovolts = line_volts(alloc, &inputs.case, &inputs.question)?;
    Ok(Workspace { line, nanovolts })
}
