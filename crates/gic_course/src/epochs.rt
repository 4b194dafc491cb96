//! The epochs of a storm.
ghost use Rattle.std.specs.Prelude.{◌≡◌, ◌↔◌, [], IfOk, IsTrue, Any, Contains};
ghost use Rattle.gic_switch.specs.Epochs.{AreEpochs};
ghost use Rattle.gic_inputs.specs.Inputs.{rows_in};
ghost use Rattle.gic_course.specs.Epochs.{HasStep};

use gic_base::OutOfMemory;
use gic_storm::Storm;
use gic_switch::{Epoch, Switchings, epochs};
use std::alloc::Global;

/// All steps of a storm as one epoch, in which no switching is in force.
fn one_epoch(alloc: Global, storm: &Storm) -> Result<Vec<Epoch>, OutOfMemory>
    ensures { IfOk result (λ v. AreEpochs storm.now.rows [] v.items) }
{
    let mut epochs = Vec::new(alloc);
    epochs.push(Epoch {
        first: 1,
        last: storm.steps(),
        through: 0,
    })?;
    Ok(epochs)
}

/// The epochs of a storm under switchings, where there are any: without them it is one epoch.
pub(crate) fn epochs_under(
    alloc: Global,
    storm: &Storm,
    switchings: &Option<Switchings>,
) -> Result<Vec<Epoch>, OutOfMemory>
    ensures { IfOk result (λ v. AreEpochs storm.now.rows (rows_in switchings.now) v.items) }
{
    match switchings {
        Some(switchings) => epochs(alloc, storm, switchings),
        None => one_epoch(alloc, storm),
    }
}

/// Whether a step lies in an epoch.
pub(crate) fn has_step(epoch: Epoch, number: u32) -> bool
    ensures { IsTrue result ↔ HasStep number epoch }
{
    epoch.first <= number && number <= epoch.last
}

/// The first of these epochs in which a step lies. There is one.
pub(crate) fn epoch_with(epochs: &[Epoch], number: u32) -> Epoch
    requires { Any (HasStep number) epochs.now }
    ensures listed { Contains epochs.now result }
    ensures step { HasStep number result }
{
    let mut place = 0;
    while !has_step(epochs[place], number) {
        place += 1;
    }
    epochs[place]
}
