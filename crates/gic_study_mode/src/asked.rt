//! The step that is shown in full.
ghost use Rattle.std.specs.Prelude.{◌≡◌, option_map, IfOk, IfSome};
ghost use Rattle.gic_inputs.specs.Inputs.{IsStormOf};
ghost use Rattle.gic_course.specs.Steps.{IsStepOf, storm_fields};
ghost use Rattle.gic_study_mode.specs.Asked.{asked_step};

use gic_base::OutOfMemory;
use gic_induce::Fields;
use gic_inputs::StormInputs;
use gic_storm::fill_fields;
use std::alloc::Global;

/// The step that is asked for, counted from 1, where the storm has it.
pub(crate) fn asked_step(inputs: &StormInputs, detail: Option<u32>) -> Option<u32>
    ensures value { result ≡ asked_step inputs.now detail }
    ensures step { IfSome result (IsStepOf inputs.now) }
{
    match detail {
        Some(number) if 1 <= number && number <= inputs.storm.steps() => Some(number),
        _ => None,
    }
}

/// The fields of the zones at a step.
fn fields_of(alloc: Global, inputs: &StormInputs, number: u32) -> Result<Fields, OutOfMemory>
    requires { IsStepOf inputs.now number }
    ensures { IfOk result (λ fields. fields ≡ storm_fields inputs.now number) }
{
    let mut fields = Fields::new(alloc, inputs.storm.zones())?;
    fill_fields(&inputs.storm, number, &mut fields);
    Ok(fields)
}

/// The fields of the zones at the step that is asked for, if there is one.
pub(crate) fn asked_fields(
    alloc: Global,
    inputs: &StormInputs,
    asked: Option<u32>,
) -> Result<Option<Fields>, OutOfMemory>
    requires { IfSome asked (IsStepOf inputs.now) }
    ensures { IfOk result (λ fields. fields ≡ option_map (storm_fields inputs.now) asked) }
{
    match asked {
        Some(number) => {
            let fields = fields_of(alloc, inputs, number)?;
            Ok(Some(fields))
        }
        None => Ok(None),
    }
}
