//! One transformer's effective current at a step.
ghost use Rattle.std.specs.Prelude.{ℕ, ◌≡◌, ◌<◌, ◌≤◌, ◌-◌, length, slice_index};
ghost use Rattle.gic_base.specs.declared.limits.TheConstants.{MOST_WALK};
ghost use Rattle.gic_fixed.specs.Ends.{ends_of};
ghost use Rattle.gic_net.specs.Net.{standing};
ghost use Rattle.gic_bound.specs.Entries.{IsBoundWithin};
ghost use Rattle.gic_enclose.specs.Solved.{IsWidth};
ghost use Rattle.gic_model.specs.Voltages.{number_at};
ghost use Rattle.gic_induce.specs.LineVolts.{volts_of};
ghost use Rattle.gic_winding.specs.ElementList.{elements_of};
ghost use Rattle.gic_stand.specs.Standing.{IsSolvable};
ghost use Rattle.gic_base_views.specs.BaseFields.{IsBaseWorkspaceFor};
ghost use Rattle.gic_base_views.specs.BaseRows.{AreCertifiedRows};
ghost use Rattle.gic_base_views.specs.Table.{base_rows_of};
ghost use Rattle.gic_course.specs.Ready.{CanShowBy, IsReadyAt};
ghost use Rattle.gic_course.specs.WorkspaceFor.{IsWorkspaceForCourse, IsStepped};
ghost use Rattle.gic_course.specs.Steps.{standing_at_step, storm_volts};
ghost use Rattle.gic_course.specs.Single.{IsNarrowEffective};

use crate::ready::Way;
use crate::showing::solve_fields;
use crate::workspace::Workspace;
use gic_base_views::laws::superposed_effective_law;
use gic_base_views::{BaseWorkspace, superposed_effective};
use gic_case::Case;
use gic_effective::effective_interval;
use gic_fixed::Interval;
use gic_induce::Fields;
use gic_inputs::StormInputs;
use gic_net::Net;
use gic_storm::fill_fields;

/// The interval that a solve in the fields gives.
fn solved_effective(
    case: &Case,
    net: &Net,
    transformer: u16,
    width: u32,
    workspace: &mut Workspace,
) -> Interval
    requires network { net.now.network ≡ elements_of case.now }
    requires transformer { transformer < length case.now.transformers }
    requires workspace { IsWorkspaceForCourse case.now workspace.old }
    requires bound { IsBoundWithin (standing net.now) MOST_WALK (slice_index workspace.old.solve_workspace.vector) }
    requires width { IsWidth width }
    ensures shown { IsNarrowEffective case.now (standing net.now)
        (number_at (volts_of case.now workspace.old.fields (elements_of case.now).list)) transformer width (ends_of result) }
    ensures stepped { IsStepped case.now net.now (width - 1) workspace.old workspace.new }
{
    // Effective currents are rounded outward once more.
    solve_fields(case, net, width - 1, workspace);
    let potentials = &workspace.solve_workspace.potentials;
    effective_interval(case, net, &workspace.volts, potentials, transformer)
}

/// The interval that is superposed for the fields from certified base fields. It is no wider than 2, and so than any width
/// that can be asked for.
fn combined_effective(
    case: &Case,
    net: &Net,
    fields: &Fields,
    bases: &BaseWorkspace,
    transformer: u16,
) -> Interval
    requires network { net.now.network ≡ elements_of case.now }
    requires solvable { IsSolvable (standing net.now) }
    requires fields { length fields.now ≡ length case.now.zones }
    requires transformer { transformer < length case.now.transformers }
    requires bases { IsBaseWorkspaceFor case.now bases.now }
    requires certified { AreCertifiedRows case.now (standing net.now) (base_rows_of bases.now.table) }
    ensures { (width : ℕ) → 2 ≤ width → IsNarrowEffective case.now (standing net.now)
        (number_at (volts_of case.now fields.now (elements_of case.now).list)) transformer width (ends_of result) }
{
    superposed_effective_law();
    case.keeps_rules();
    net.within_limits();
    fields.within_limit();
    superposed_effective(fields, &bases.table, transformer)
}

/// The interval in the fields, one way or the other.
fn effective_in_fields(
    way: Way,
    case: &Case,
    net: &Net,
    transformer: u16,
    width: u32,
    workspace: &mut Workspace,
) -> Interval
    requires can { CanShowBy way case.now net.now workspace.old }
    requires transformer { transformer < length case.now.transformers }
    requires width { IsWidth width }
    ensures shown { IsNarrowEffective case.now (standing net.now)
        (number_at (volts_of case.now workspace.old.fields (elements_of case.now).list)) transformer width (ends_of result) }
    ensures can { CanShowBy way case.now net.now workspace.new }
{
    match (way, &workspace.bases) {
        (Way::Superpose, Some(bases)) => {
            combined_effective(case, net, &workspace.fields, bases, transformer)
        }
        _ => solved_effective(case, net, transformer, width, workspace),
    }
}

/// The interval of a transformer's effective current at a step, no wider than `width`, where all is ready for the step,
/// and stays so. Takes no memory.
pub(crate) fn effective_of_step(
    inputs: &StormInputs,
    net: &Net,
    number: u32,
    way: Way,
    transformer: u16,
    width: u32,
    workspace: &mut Workspace,
) -> Interval
    requires ready { IsReadyAt inputs.now number way net.now workspace.old }
    requires solvable { IsSolvable (standing net.now) }
    requires transformer { transformer < length inputs.now.case.transformers }
    requires width { IsWidth width }
    ensures shown { IsNarrowEffective inputs.now.case (standing_at_step inputs.now number) (storm_volts inputs.now number)
        transformer width (ends_of result) }
    ensures stays { IsReadyAt inputs.now number way net.now workspace.new }
{
    let case = &inputs.case;
    fill_fields(&inputs.storm, number, &mut workspace.fields);
    effective_in_fields(way, case, net, transformer, width, workspace)
}
