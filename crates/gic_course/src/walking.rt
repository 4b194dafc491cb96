//! The walk over the epochs of a storm, which tells whether the network can be solved in each.
ghost use Rattle.std.specs.Prelude.{ℕ, ◌≡◌, OnOk, IfErr, IsTrue, IsFalse};
ghost use Rattle.gic_switch.specs.Epochs.{AreEpochs};
ghost use Rattle.gic_net.specs.Net.{standing};
ghost use Rattle.gic_stand.specs.Needs.{Solved, Fails, IsMet, IsUnmet};
ghost use Rattle.gic_inputs.specs.Inputs.{rows_in};
ghost use Rattle.gic_stand.specs.Standing.{IsSolvable};
ghost use Rattle.gic_course.specs.Epochs.{HasStep, IsEpochOf};
ghost use Rattle.gic_course.specs.Ready.{IsSwitchedFor, CanWalk};
ghost use Rattle.gic_course.specs.Steps.{standing_at_step, storm_steps};
ghost use Rattle.gic_course.specs.Switched.{changes_to};

use crate::switched::SwitchedNet;
use crate::workspace::Workspace;
use gic_inputs::StormInputs;
use gic_stand::NetworkRefusal;
use gic_switch::Epoch;

/// Puts the switchings of an epoch in force, and no others, and tells whether what stands may have changed.
pub(crate) fn put_in_force(inputs: &StormInputs, epoch: Epoch, switched: &mut SwitchedNet) -> bool
    requires epoch { IsEpochOf inputs.now epoch }
    requires switched { IsSwitchedFor inputs.now switched.old }
    ensures stands { (number : ℕ) → HasStep number epoch → standing switched.new.net ≡ standing_at_step inputs.now number }
    ensures switched { IsSwitchedFor inputs.now switched.new }
    ensures changed { result ≡ changes_to switched.old (rows_in inputs.now.switchings) epoch.through }
    ensures same { IsFalse result → switched.new.net ≡ switched.old.net }
{
    switched.switch_to(inputs.rows(), epoch.through)
}

/// Whether the network can be solved in an epoch: if not, its first step is told. Where the net as it stands was seen to be
/// solvable, and stays, there is no second look. Takes no memory.
fn expect_epoch(
    inputs: &StormInputs,
    epoch: Epoch,
    seen: bool,
    switched: &mut SwitchedNet,
    workspace: &mut Workspace,
) -> Result<(), NetworkRefusal>
    requires epoch { IsEpochOf inputs.now epoch }
    requires walks { CanWalk inputs.now switched.old workspace.old }
    requires seen { IsTrue seen → IsSolvable (standing switched.old.net) }
    ensures net { OnOk result (IsSolvable (standing switched.new.net)) }
    ensures solvable { OnOk result ((number : ℕ) → HasStep number epoch → IsSolvable (standing_at_step inputs.now number)) }
    ensures err { IfErr result (Fails Solved inputs.now.case epoch.first (standing_at_step inputs.now epoch.first)) }
    ensures walks { CanWalk inputs.now switched.new workspace.new }
{
    let changed = put_in_force(inputs, epoch, switched);
    if seen && !changed {
        return Ok(());
    }
    workspace
        .solve_workspace
        .look(&inputs.case, &switched.net, epoch.first)?;
    Ok(())
}

/// Whether the network can be solved in each epoch: the first step at which it can't is told. Takes no memory.
pub(crate) fn expect_epochs(
    inputs: &StormInputs,
    epochs: &[Epoch],
    switched: &mut SwitchedNet,
    workspace: &mut Workspace,
) -> Result<(), NetworkRefusal>
    requires epochs { AreEpochs inputs.now.storm.rows (rows_in inputs.now.switchings) epochs.now }
    requires walks { CanWalk inputs.now switched.old workspace.old }
    ensures met { OnOk result (IsMet Solved (storm_steps inputs.now)) }
    ensures unmet { IfErr result (IsUnmet Solved inputs.now.case (storm_steps inputs.now)) }
    ensures walks { CanWalk inputs.now switched.new workspace.new }
{
    for (place, epoch) in epochs.iter().enumerate() {
        expect_epoch(inputs, *epoch, place > 0, switched, workspace)?;
    }
    Ok(())
}
