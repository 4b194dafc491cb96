//! The view of a step.
ghost use Rattle.std.specs.Prelude.{ℕ, ◌≡◌, ◌<◌, ◌≤◌, ◌-◌, length, slice_index};
ghost use Rattle.gic_base.specs.declared.limits.TheConstants.{MOST_WALK};
ghost use Rattle.gic_net.specs.Net.{standing};
ghost use Rattle.gic_bound.specs.Entries.{IsBoundWithin};
ghost use Rattle.gic_enclose.specs.Solved.{IsWidth};
ghost use Rattle.gic_winding.specs.ElementList.{elements_of};
ghost use Rattle.gic_effective.specs.Shown.{IsSameStep};
ghost use Rattle.gic_effective.specs.ViewLengths.{HasViewLengths};
ghost use Rattle.gic_stand.specs.Standing.{IsSolvable};
ghost use Rattle.gic_base_views.specs.BaseFields.{IsBaseWorkspaceFor};
ghost use Rattle.gic_base_views.specs.BaseRows.{AreCertifiedRows};
ghost use Rattle.gic_base_views.specs.Table.{base_rows_of};
ghost use Rattle.gic_course.specs.Ready.{CanShowBy, IsReadyAt};
ghost use Rattle.gic_course.specs.WorkspaceFor.{IsWorkspaceForCourse, IsStepped};
ghost use Rattle.gic_storm.specs.Steps.{time_of_step};
ghost use Rattle.gic_course.specs.Steps.{standing_at_step, storm_fields};
ghost use Rattle.gic_course.specs.Views.{IsShownIn};

use crate::ready::Way;
use crate::workspace::Workspace;
use gic_base_views::laws::superposed_views_law;
use gic_base_views::{BaseWorkspace, fill_superposed};
use gic_case::Case;
use gic_effective::fill_view;
use gic_effective::laws::line_items_law;
use gic_induce::{Fields, fill_volts};
use gic_inputs::StormInputs;
use gic_net::Net;
use gic_storm::fill_fields;
use gic_switch::time_of_step;
use gic_view::StepView;

/// Solves the network in the fields, from the guesses that are there.
pub(crate) fn solve_fields(case: &Case, net: &Net, width: u32, workspace: &mut Workspace)
    requires network { net.now.network ≡ elements_of case.now }
    requires workspace { IsWorkspaceForCourse case.now workspace.old }
    requires bound { IsBoundWithin (standing net.now) MOST_WALK (slice_index workspace.old.solve_workspace.vector) }
    requires width { 2 ≤ width }
    ensures { IsStepped case.now net.now width workspace.old workspace.new }
{
    line_items_law();
    fill_volts(case, net.list(), &workspace.fields, &mut workspace.volts);
    workspace
        .solve_workspace
        .solve(net, &workspace.volts, width);
}

/// Sets all intervals of the view to those that a solve in the fields gives.
fn show_solved(case: &Case, net: &Net, width: u32, workspace: &mut Workspace, view: &mut StepView)
    requires network { net.now.network ≡ elements_of case.now }
    requires workspace { IsWorkspaceForCourse case.now workspace.old }
    requires bound { IsBoundWithin (standing net.now) MOST_WALK (slice_index workspace.old.solve_workspace.vector) }
    requires width { IsWidth width }
    requires view { HasViewLengths case.now view.old }
    ensures shown { IsShownIn case.now (standing net.now) workspace.old.fields width view.new }
    ensures step { IsSameStep view.old view.new }
    ensures stepped { IsStepped case.now net.now (width - 1) workspace.old workspace.new }
{
    // Effective currents are rounded outward once more.
    solve_fields(case, net, width - 1, workspace);
    workspace.volts.within_limit();
    fill_view(
        case,
        net,
        &workspace.volts,
        &workspace.solve_workspace.potentials,
        view,
    );
}

/// Sets all intervals of the view to those that are superposed for the fields from certified base fields. None is wider
/// than 2, and so than any width that can be asked for.
fn show_superposed(
    case: &Case,
    net: &Net,
    fields: &Fields,
    bases: &BaseWorkspace,
    view: &mut StepView,
)
    requires network { net.now.network ≡ elements_of case.now }
    requires solvable { IsSolvable (standing net.now) }
    requires fields { length fields.now ≡ length case.now.zones }
    requires bases { IsBaseWorkspaceFor case.now bases.now }
    requires certified { AreCertifiedRows case.now (standing net.now) (base_rows_of bases.now.table) }
    requires view { HasViewLengths case.now view.old }
    ensures shown { (width : ℕ) → 2 ≤ width → IsShownIn case.now (standing net.now) fields.now width view.new }
    ensures step { IsSameStep view.old view.new }
{
    superposed_views_law();
    case.keeps_rules();
    net.within_limits();
    fields.within_limit();
    fill_superposed(case, net, fields, &bases.table, view);
}

/// Sets all intervals of the view in the fields, one way or the other.
fn show_fields(
    way: Way,
    case: &Case,
    net: &Net,
    width: u32,
    workspace: &mut Workspace,
    view: &mut StepView,
)
    requires can { CanShowBy way case.now net.now workspace.old }
    requires width { IsWidth width }
    requires view { HasViewLengths case.now view.old }
    ensures shown { IsShownIn case.now (standing net.now) workspace.old.fields width view.new }
    ensures step { IsSameStep view.old view.new }
    ensures can { CanShowBy way case.now net.now workspace.new }
{
    match (way, &workspace.bases) {
        (Way::Superpose, Some(bases)) => {
            show_superposed(case, net, &workspace.fields, bases, view);
        }
        _ => show_solved(case, net, width, workspace, view),
    }
}

/// Fills the view of a step, in intervals no wider than `width`, where all is ready for it, and stays so. Takes no memory.
pub(crate) fn show_step(
    inputs: &StormInputs,
    net: &Net,
    number: u32,
    way: Way,
    width: u32,
    workspace: &mut Workspace,
    view: &mut StepView,
)
    requires ready { IsReadyAt inputs.now number way net.now workspace.old }
    requires solvable { IsSolvable (standing net.now) }
    requires width { IsWidth width }
    requires view { HasViewLengths inputs.now.case view.old }
    ensures shown { IsShownIn inputs.now.case (standing_at_step inputs.now number) (storm_fields inputs.now number) width view.new }
    ensures number { view.new.number ≡ number }
    ensures time { view.new.time ≡ time_of_step inputs.now.storm.rows number }
    ensures stays { IsReadyAt inputs.now number way net.now workspace.new }
{
    let case = &inputs.case;
    fill_fields(&inputs.storm, number, &mut workspace.fields);
    show_fields(way, case, net, width, workspace, view);
    view.set_number(number);
    view.set_time(time_of_step(&inputs.storm, number));
}
