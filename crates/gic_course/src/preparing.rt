//! What is made ready where an epoch begins.
ghost use Rattle.std.specs.Prelude.{◌≡◌, ◌<◌, slice_index, IfSome};
ghost use Rattle.gic_base.specs.declared.limits.TheConstants.{MOST_WALK};
ghost use Rattle.gic_net.specs.Net.{standing};
ghost use Rattle.gic_bound.specs.Entries.{IsBoundWithin};
ghost use Rattle.gic_winding.specs.ElementList.{elements_of};
ghost use Rattle.gic_stand.specs.Standing.{IsSolvable};
ghost use Rattle.gic_course.specs.Epochs.{IsEpochOf};
ghost use Rattle.gic_course.specs.Ready.{IsSettledBy};
ghost use Rattle.gic_course.specs.WorkspaceFor.{IsWorkspaceForCourse, IsPrepared};
ghost use Rattle.gic_course.specs.Ways.{can_superpose, way_by_count, way_from};

use crate::ready::Way;
use crate::workspace::Workspace;
use gic_base_views::prepare_bases;
use gic_case::Case;
use gic_inputs::StormInputs;
use gic_net::Net;
use gic_sweep::Steps;
use gic_switch::Epoch;
use std::marker::Brand;
use std::sync::ledger::{Blank, Ledger};

/// Certifies base fields where there is space for them, as `prepare_bases` does, and counts none of the steps of that.
fn prepare_uncounted<L: Ledger>(case: &Case, net: &Net, workspace: &mut Workspace, blank: Blank)
    requires name { blank.name ≡ L.name }
    requires parts { blank.parts ≡ L.parts }
    requires some { 0 < blank.parts }
    requires network { net.now.network ≡ elements_of case.now }
    requires workspace { IsWorkspaceForCourse case.now workspace.old }
    requires bound { IsBoundWithin (standing net.now) MOST_WALK (slice_index workspace.old.solve_workspace.vector) }
    ensures { IsPrepared case.now net.now workspace.old workspace.new }
{
    let mut steps: Steps<L> = Steps::new(blank);
    if let Some(bases) = &mut workspace.bases {
        prepare_bases(
            case,
            net,
            &workspace.solve_workspace.vector,
            &mut workspace.fields,
            &mut workspace.solve_workspace.solver,
            bases,
            &mut steps,
        );
    }
}

/// Certifies base fields where there is space for them and the steps of an epoch are enough, and tells how its steps are
/// shown.
fn settle_epoch(inputs: &StormInputs, epoch: Epoch, net: &Net, workspace: &mut Workspace) -> Way
    requires epoch { IsEpochOf inputs.now epoch }
    requires network { net.now.network ≡ elements_of inputs.now.case }
    requires workspace { IsWorkspaceForCourse inputs.now.case workspace.old }
    requires bound { IsBoundWithin (standing net.now) MOST_WALK (slice_index workspace.old.solve_workspace.vector) }
    ensures settled { IsSettledBy result inputs.now.case net.now workspace.new }
    ensures way { result ≡ way_by_count epoch inputs.now.storm.zones (can_superpose inputs.now.case) }
    ensures workspace { IsWorkspaceForCourse inputs.now.case workspace.new }
{
    match Way::by_count(epoch, inputs.storm.zones(), workspace.bases.is_some()) {
        Way::Solve => Way::Solve,
        Way::Superpose => {
            prepare_uncounted::<Brand>(&inputs.case, net, workspace, Blank::new(1));
            Way::Superpose
        }
    }
}

/// Makes a bound vector of the net ready, and certifies base fields where the steps of the epoch are enough for them, but
/// for what is kept; and tells how the steps of the epoch are shown. Takes no memory.
pub(crate) fn prepare_epoch(
    inputs: &StormInputs,
    epoch: Epoch,
    kept: Option<Way>,
    net: &Net,
    workspace: &mut Workspace,
) -> Way
    requires epoch { IsEpochOf inputs.now epoch }
    requires solvable { IsSolvable (standing net.now) }
    requires network { net.now.network ≡ elements_of inputs.now.case }
    requires workspace { IsWorkspaceForCourse inputs.now.case workspace.old }
    requires kept { IfSome kept (λ way. IsSettledBy way inputs.now.case net.now workspace.old) }
    ensures settled { IsSettledBy result inputs.now.case net.now workspace.new }
    ensures way { result ≡ way_from kept epoch inputs.now.storm.zones (can_superpose inputs.now.case) }
    ensures workspace { IsWorkspaceForCourse inputs.now.case workspace.new }
{
    match kept {
        Some(Way::Superpose) => Way::Superpose,
        Some(Way::Solve) => settle_epoch(inputs, epoch, net, workspace),
        None => {
            workspace.solve_workspace.find_vector(net);
            settle_epoch(inputs, epoch, net, workspace)
        }
    }
}
