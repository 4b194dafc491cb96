//! What a study writes to.
ghost use Rattle.std.specs.Prelude.{[], IfOk};
ghost use Rattle.gic_view.specs.Peaks.{IsPeaksOf};
ghost use Rattle.gic_course.specs.CourseOf.{IsCourseOf};
ghost use Rattle.gic_study_mode.specs.Seen.{IsSpaceForViews};

use gic_base::OutOfMemory;
use gic_course::Course;
use gic_inputs::StormInputs;
use gic_view::{Peaks, StepView};
use std::alloc::Global;

/// What a study writes to. It is made before any step is looked at.
pub(crate) struct Views {
    /// The peaks of the views so far.
    pub(crate) peaks: Peaks,
    /// The view of the step that is asked for.
    pub(crate) asked: StepView,
    /// The view of any other step.
    pub(crate) other: StepView,
}

impl Drop for Views {
    /// Lets go of everything, in one step for whoever drops it.
    fn drop(self) {
        let Views {
            peaks: _peaks,
            asked: _asked,
            other: _other,
        } = self;
    }
}

/// The workspace for the views of a storm. There are no peaks yet.
#[tactic(auto, using(gic_stand::proofs::Repeated::repeated_length))]
pub(crate) fn make_views(
    alloc: Global,
    inputs: &StormInputs,
    course: &Course,
) -> Result<Views, OutOfMemory>
    requires { IsCourseOf inputs.now course.now }
    ensures space { IfOk result (IsSpaceForViews inputs.now.case) }
    ensures of_none { IfOk result (λ views. IsPeaksOf [] views.peaks) }
{
    let asked = course.blank_view(alloc, inputs)?;
    let other = course.blank_view(alloc, inputs)?;
    let (nodes, elements, transformers) = other.sizes();
    let peaks = Peaks::new(alloc, nodes, elements, transformers)?;
    Ok(Views {
        peaks,
        asked,
        other,
    })
}
