//! What a series makes before it looks at any step.
ghost use Rattle.std.specs.Prelude.{IfOk};
ghost use Rattle.gic_inputs.specs.Inputs.{IsStormOf};
ghost use Rattle.gic_series.specs.Made.{IsMadeFor};

use crate::rows::SeriesRows;
use gic_base::OutOfMemory;
use gic_course::Course;
use gic_inputs::StormInputs;
use gic_text::LineBuilder;
use std::alloc::Global;

/// All that a series takes memory for. It is made before any step is looked at.
pub struct Workspace {
    pub(crate) line: LineBuilder,
    pub(crate) course: Course,
    /// A row for each step.
    pub(crate) rows: SeriesRows,
}

impl Drop for Workspace {
    /// Lets go of everything, in one step for whoever drops it.
    fn drop(self) {
        let Workspace {
            line: _line,
            course: _course,
            rows: _rows,
        } = self;
    }
}

/// The workspace for a series of this storm.
#[tactic(auto, using(gic_stand::proofs::Repeated::repeated_length))]
pub fn make_workspace(alloc: Global, inputs: &StormInputs) -> Result<Workspace, OutOfMemory>
    requires { IsStormOf inputs.now }
    ensures { IfOk result (IsMadeFor inputs.now) }
{
    let line = LineBuilder::new(alloc)?;
    let course = Course::new(alloc, inputs)?;
    let rows = SeriesRows::new(alloc, inputs.storm.steps())?;
    Ok(Workspace { line, course, rows })
}
