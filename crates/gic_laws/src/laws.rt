//! Theorems of the currents of a study and of orientations, each the contract of a function that does nothing but bring
//! the theorems that it joins.
ghost use Rattle.gic_laws.specs.Dwells.{DwellsAreTrue};
ghost use Rattle.gic_laws.specs.Earthings.{EarthingsAreTrue};
ghost use Rattle.gic_laws.specs.Losses.{CurrentsExist, LossesAreTrue, StudiesShowUnits};
ghost use Rattle.gic_laws.specs.Orientation.{NoFieldGivesMore, AlignedFieldGivesAsMuch};

use gic_criteria::laws::greatest_over_all_orientations_law;
use gic_exists::laws::agreement_law;
use gic_induce::laws::linearity_law;
use gic_model::laws::superposition_law;
use gic_monitor::laws::{losses_are_bounded_law, monitors_bound_the_exact_currents_law};

/// Whatever solves the network of each step: the exact absolute effective current of a transformer is the threshold or
/// more at no fewer steps than the first count of its line of dwells, and at no more than the second one.
pub fn dwells_of_studies_law()
    ensures { DwellsAreTrue }
{
    monitors_bound_the_exact_currents_law();
}

/// Whatever solves the network of each step: the exact current of an earthing lies in its range at each step at which it
/// stands, each end of the range is at most the width that was asked from one of these currents, and `open` is told
/// exactly of one that stands at no step.
pub fn earthings_of_studies_law()
    ensures { EarthingsAreTrue }
{
    monitors_bound_the_exact_currents_law();
}

/// The effective currents of the transformers in a solution are numerators over one denominator, and whatever solves the
/// network of a step, the step's view in a right study shows them as `losses_are_bounded_law` of `gic_monitor` asks. So
/// the exact total of a line of losses is at most its high end at every step, and at least its low end at one. At the step
/// that is named it is less than the high end by at most the width times the sum of the factors, and before it under it.
pub fn losses_of_studies_law()
    ensures exist { CurrentsExist }
    ensures shown { StudiesShowUnits }
    ensures lines { LossesAreTrue }
{
    losses_are_bounded_law();
}

/// In a network within the limits whose live nodes are earthed, let a and b be a transformer's signed effective currents
/// in a uniform field of one strength to the north and to the east. No uniform field of at most that strength gives a
/// current whose square is above a² + b², and one of just that strength that goes as a and b do gives as much. The two
/// parts of these fields are any rational numbers of mV/km.
pub fn worst_orientation_law()
    ensures most { NoFieldGivesMore }
    ensures reached { AlignedFieldGivesAsMuch }
{
    linearity_law();
    superposition_law();
    agreement_law();
    greatest_over_all_orientations_law();
}
