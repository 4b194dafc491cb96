//! Existence, and agreement at live nodes: each network whose live nodes are all earthed has a solution, and any two of its solutions
//! agree.
#![tactic(auto)]

ghost use Rattle.std.specs.Prelude.{◌≡◌, length};
ghost use Rattle.gic_model.specs.Earthing.{AreEarthed};
ghost use Rattle.gic_model.specs.Voltages.{number_at};
ghost use Rattle.gic_exists.specs.Exists.{standing_without, HasSolution, AnyTwoAgree};

use gic_model::{Elements, Item, Volts};

pub mod laws;

/// A solution exists where, with the items in `opened` out, every live node is earthed. `volts` has one voltage for
/// each element. Nothing is computed: the contract is the claim.
pub fn solution_exists(elements: &Elements, opened: &[Item], volts: &Volts)
    requires earthed { AreEarthed (standing_without elements.now opened.now) }
    requires number { length volts.now ≡ length elements.now.list }
    ensures { HasSolution (standing_without elements.now opened.now) (number_at volts.now) }
{
    elements.within_limits();
}

/// Any two solutions agree, in the potential of each live node and in the current of each element, where, with the
/// items in `opened` out, every live node is earthed. `volts` has one voltage for each element.
pub fn solutions_agree(elements: &Elements, opened: &[Item], volts: &Volts)
    requires earthed { AreEarthed (standing_without elements.now opened.now) }
    requires number { length volts.now ≡ length elements.now.list }
    ensures { AnyTwoAgree (standing_without elements.now opened.now) (number_at volts.now) }
{
    elements.within_limits();
}
