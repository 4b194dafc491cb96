//! Epochs: the longest runs of steps with the same switchings in force.
ghost use Rattle.std.specs.Prelude.{◌≡◌, ◌≤◌, IfOk, length};
ghost use Rattle.gic_model.specs.Standing.{rows_in_force};
ghost use Rattle.gic_storm.specs.Steps.{steps_in, time_of_step};
ghost use Rattle.gic_switch.specs.SwitchingsView.{AreSwitchings};
ghost use Rattle.gic_switch.specs.Epochs.{AreEpochs};

use crate::switchings::Switchings;
use gic_base::OutOfMemory;
use gic_model::Switching;
use gic_storm::Storm;
use std::alloc::Global;

/// A longest run of steps of a storm with the same switchings in force.
#[derive(Clone, Copy, Debug, PartialEq, Eq)]
pub struct Epoch {
    /// The first step, counted from 1.
    pub first: u32,
    /// The last step.
    pub last: u32,
    /// How many switchings are in force: the first `through` rows.
    pub through: u32,
}

/// How many switchings are in force at a time, where this many are at least.
fn through_at(rows: &[Switching], least: u32, time: u32) -> u32
    requires sound { AreSwitchings rows.now }
    requires least { least ≤ length (rows_in_force time rows.now) }
    ensures { result ≡ length (rows_in_force time rows.now) }
{
    let count = rows.len() as u32;
    for place in least..count {
        if time < rows[place as usize].time {
            return place;
        }
    }
    count
}

/// The time of a step of a storm, in seconds. The number is one of the storm's steps, which begin at 1.
pub fn time_of_step(storm: &Storm, number: u32) -> u32
    requires least { 1 ≤ number }
    requires most { number ≤ length (steps_in storm.now.rows) }
    ensures { result ≡ time_of_step storm.now.rows number }
{
    match storm.step(number) {
        [first, ..] => first.time,
        [] => 0,
    }
}

/// The epochs of a storm in order: they cover its steps, each once; at each step of an epoch its first `through`
/// switchings are in force and no others; and neighbours differ in the switchings in force.
pub fn epochs(
    alloc: Global,
    storm: &Storm,
    switchings: &Switchings,
) -> Result<Vec<Epoch>, OutOfMemory>
    ensures { IfOk result (λ v. AreEpochs storm.now.rows switchings.now v.items) }
{
    let (rows, steps) = (switchings.rows(), storm.steps());
    let mut epochs = Vec::new(alloc);
    let mut epoch = Epoch {
        first: 1,
        last: 1,
        through: through_at(rows, 0, time_of_step(storm, 1)),
    };
    for number in 2..steps + 1 {
        let through = through_at(rows, epoch.through, time_of_step(storm, number));
        if through == epoch.through {
            epoch.last = number;
        } else {
            epochs.push(epoch)?;
            epoch = Epoch {
                first: number,
                last: number,
                through,
            };
        }
    }
    epochs.push(epoch)?;
    Ok(epochs)
}
