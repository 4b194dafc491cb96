//! What the mode takes memory for.
ghost use Rattle.std.specs.Prelude.{IfOk};
ghost use Rattle.gic_review.specs.Made.{IsMadeFor};

use crate::findings::{Finding, findings};
use gic_base::OutOfMemory;
use gic_inputs::Inputs;
use gic_text::LineBuilder;
use std::alloc::Global;

/// All that the mode takes memory for.
#[derive(Drop)]
pub struct Workspace {
    pub(crate) line: LineBuilder,
    pub(crate) findings: Vec<Finding>,
}

/// The workspace for what is found in the case: all of it is found here.
pub fn make_workspace(alloc: Global, inputs: &Inputs<()>) -> Result<Workspace, OutOfMemory>
    ensures { IfOk result (IsMadeFor inputs.now) }
{
    let line = LineBuilder::new(alloc)?;
    let findings = findings(alloc, &inputs.case)?;
    Ok(Workspace { line, findings })
}
