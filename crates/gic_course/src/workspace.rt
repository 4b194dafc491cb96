//! What a course writes to.
ghost use Rattle.std.specs.Prelude.{◌≡◌, length, is_some, IfOk, IfSome};
ghost use Rattle.gic_winding.specs.ElementList.{elements_of};
ghost use Rattle.gic_base_views.specs.BaseFields.{IsBaseWorkspaceFor};
ghost use Rattle.gic_course.specs.WorkspaceFor.{IsWorkspaceForCourse};
ghost use Rattle.gic_course.specs.Ways.{can_superpose};

use gic_base::OutOfMemory;
use gic_base_views::BaseWorkspace;
use gic_case::Case;
use gic_induce::Fields;
use gic_model::{Elements, Volts};
use gic_uniform::SolveWorkspace;
use std::alloc::Global;

/// The most pairs of intervals that are kept for base fields: 32 MiB of them. At the limits of formats 1 and 2 that is
/// enough for sixteen zones.
const MOST_PAIRS: usize = 1 << 19;

/// Whether the pairs of intervals of a case are few enough to be kept.
fn can_superpose(case: &Case, elements: &Elements) -> bool
    requires { elements.now ≡ elements_of case.now }
    ensures { result ≡ can_superpose case.now }
{
    elements.within_limits();
    case.keeps_rules();
    let places = elements.nodes() as usize + elements.list().len() + case.transformers().len();
    case.zones().len() * places <= MOST_PAIRS
}

/// The workspace for the base fields of a case, where their intervals are few enough to be kept.
fn workspace_for_bases(
    alloc: Global,
    case: &Case,
    elements: &Elements,
) -> Result<Option<BaseWorkspace>, OutOfMemory>
    requires { elements.now ≡ elements_of case.now }
    ensures superposes { IfOk result (λ bases. is_some bases ≡ can_superpose case.now) }
    ensures workspace { IfOk result (λ bases. IfSome bases (IsBaseWorkspaceFor case.now)) }
{
    if !can_superpose(case, elements) {
        return Ok(None);
    }
    let workspace = BaseWorkspace::new(alloc, case, elements)?;
    Ok(Some(workspace))
}

/// What a course writes to. It is made before any step is looked at.
pub(crate) struct Workspace {
    pub(crate) solve_workspace: SolveWorkspace,
    /// The fields of the step that is shown, and their voltages.
    pub(crate) fields: Fields,
    pub(crate) volts: Volts,
    /// The workspace for base fields, where their intervals are few enough to be kept.
    pub(crate) bases: Option<BaseWorkspace>,
}

impl Drop for Workspace {
    /// Lets go of everything, in one step for whoever drops it.
    fn drop(self) {
        let Workspace {
            solve_workspace: _solve_workspace,
            fields: _fields,
            volts: _volts,
            bases: _bases,
        } = self;
    }
}

/// The workspace for the network of a case and its zones.
pub(crate) fn make_workspace(
    alloc: Global,
    case: &Case,
    elements: &Elements,
    zones: u16,
) -> Result<Workspace, OutOfMemory>
    requires elements { elements.now ≡ elements_of case.now }
    requires zones { zones ≡ length case.now.zones }
    ensures { IfOk result (IsWorkspaceForCourse case.now) }
{
    let solve_workspace = SolveWorkspace::new(alloc, elements.nodes(), elements.count())?;
    let fields = Fields::new(alloc, zones)?;
    let volts = Volts::new(alloc, elements)?;
    let bases = workspace_for_bases(alloc, case, elements)?;
    Ok(Workspace {
        solve_workspace,
        fields,
        volts,
        bases,
    })
}
