//! The weights of a transformer's windings as voltages of an adjoint solution.
ghost use Rattle.std.specs.Prelude.{◌≡◌, ◌<◌, ◌≤◌, ◌*◌, ◌^◌, length, ℕ, Bool, pos, ◌≤ℤ◌, unsigned_abs};
ghost use Rattle.std.specs.Option.{option_to_list};
ghost use Rattle.gic_case.specs.Sound.{IsRated};
ghost use Rattle.gic_model.specs.declared.parts.Item.{Item};
ghost use Rattle.gic_model.specs.Limits.{most_wide_volts};
ghost use Rattle.gic_model.specs.Standing.{standing_elements};
ghost use Rattle.gic_model.specs.Voltages.{number_at};
ghost use Rattle.gic_varied.specs.Grounds.{HaveNoGroundVolts};
ghost use Rattle.gic_varied.specs.Reciprocal.{weights_from};
ghost use Rattle.gic_winding.specs.ElementList.{elements_of};
ghost use Rattle.gic_winding.specs.Weights.{transformer_at, weighted_windings};
ghost use Rattle.gic_grounds.specs.declared.unit.TheConstants.{ADJOINT_UNIT};
ghost use Rattle.gic_grounds.specs.Scale.{most_weight_volts, multiple, weight_times, stray_unit, windings_in, weight_at};

use crate::unit::ADJOINT_UNIT;
use gic_base::ElementId;
use gic_case::Case;
use gic_model::{Element, WideVolts};
use gic_winding::laws::limits_law;
use gic_winding::{Weights, effective_weights};

/// The greatest voltage of a weight, in nanovolts: a third of the greatest for which a network is solved, rounded down.
const MOST_WEIGHT_VOLTS: u64 = 96_000_000_000_000_000;

/// The greatest multiple for which no weight's voltage is beyond the limit, for potentials in units of so many nanovolts.
#[tactic(auto, using(crate::proofs::Weighing::divisor_fits, crate::proofs::Weighing::divisor_above, crate::proofs::Weighing::multiple_space, crate::proofs::Weighing::multiple_enough))]
fn multiple(high_volts: u32, unit: u32) -> u64
    requires volts { IsRated high_volts }
    requires unit { 0 < unit }
    requires small_unit { unit < 2 ^ 7 }
    ensures value { result ≡ multiple high_volts unit }
    ensures space { result * (ADJOINT_UNIT * unit) * high_volts ≤ most_weight_volts }
    ensures enough { 2 ^ 22 ≤ 3 * high_volts * result }
{
    MOST_WEIGHT_VOLTS / (u64::from(high_volts) * (u64::from(ADJOINT_UNIT) * u64::from(unit)))
}

/// So many products of a unit of potentials and one of adjoint potentials make a nanoampere per phase of the weighted current
/// of a transformer with this high voltage.
#[tactic(auto, using(crate::proofs::Weighing::stray_fits))]
pub fn stray_unit(high_volts: u32, unit: u32) -> u64
    requires volts { IsRated high_volts }
    requires unit { 0 < unit }
    requires small_unit { unit < 2 ^ 7 }
    ensures value { result ≡ stray_unit high_volts unit }
    ensures enough { 2 ^ 22 ≤ result }
{
    3 * u64::from(high_volts) * multiple(high_volts, unit)
}

/// A volt of a weight is this many nanovolts.
#[tactic(auto, using(crate::proofs::Weighing::times_fits))]
fn weight_times(high_volts: u32, unit: u32) -> u64
    requires volts { IsRated high_volts }
    requires unit { 0 < unit }
    requires small_unit { unit < 2 ^ 7 }
    ensures value { result ≡ weight_times high_volts unit }
    ensures space { result * high_volts ≤ most_weight_volts }
{
    multiple(high_volts, unit) * (u64::from(ADJOINT_UNIT) * u64::from(unit))
}

/// The weight of a winding that may be at a place, and 0 where it isn't.
fn weight_there(winding: Option<(ElementId, u32)>, place: ElementId) -> u64
    ensures value { pos result ≡ weight_at (option_to_list winding) place.0 }
    ensures small { result < 2 ^ 32 }
{
    match winding {
        Some((element, weight)) => {
            if element.0 == place.0 {
                u64::from(weight)
            } else {
                0
            }
        }
        None => 0,
    }
}

/// The weight of the element at a place.
fn weight_at(weights: &Weights, place: ElementId) -> u64
    ensures { pos result ≡ weight_at (windings_in weights.now) place.0 }
{
    weight_there(weights.first, place)
        + weight_there(weights.second, place)
        + weight_there(weights.third, place)
}

/// The voltage of the element at a place: its weight so many times.
#[tactic(auto, using(crate::proofs::Weighing::scaled_fits))]
fn volts_at(weights: &Weights, times: u64, place: ElementId) -> i64
    requires most { weight_at (windings_in weights.now) place.0 ≤ℤ pos weights.now.high_volts }
    requires space { times * weights.now.high_volts ≤ most_weight_volts }
    ensures value { result ≡ weights_from times (windings_in weights.now) place.0 }
    ensures limit { unsigned_abs result ≤ most_wide_volts }
{
    (times * weight_at(weights, place)) as i64
}

/// Leaves in `out`, which has so many voltages, the weight of each element so many times.
fn fill_scaled(weights: &Weights, times: u64, count: u16, out: &mut WideVolts)
    requires count { length out.old ≡ count }
    requires most { (place : ℕ) → weight_at (windings_in weights.now) place ≤ℤ pos weights.now.high_volts }
    requires space { times * weights.now.high_volts ≤ most_weight_volts }
    ensures each { (place : ℕ) → place < count → number_at out.new place ≡ weights_from times (windings_in weights.now) place }
    ensures same_count { length out.new ≡ length out.old }
{
    for place in 0..count {
        let place = ElementId(place);
        let nanovolts = volts_at(weights, times, place);
        out.set(place, nanovolts);
    }
}

/// Leaves in `out` the voltages of the adjoint solution of a transformer, in nanovolts, for potentials in units of so many
/// nanovolts: at each winding its weight, scaled up as far as voltages reach, and 0 at every other element.
pub fn fill_weights(
    case: &Case,
    elements: &[Element],
    transformer: u16,
    unit: u32,
    out: &mut WideVolts,
)
    requires elements { elements.now ≡ (elements_of case.now).list }
    requires place { transformer < length case.now.transformers }
    requires unit { 0 < unit }
    requires small_unit { unit < 2 ^ 7 }
    requires space { length out.old ≡ length elements.now }
    ensures weights { (place : ℕ) → number_at out.new place ≡
        weights_from (weight_times (transformer_at case.now transformer).high_volts unit) (weighted_windings case.now transformer) place }
    ensures no_ground { (stands : Item → Bool) → HaveNoGroundVolts (standing_elements (elements_of case.now) stands) (number_at out.new) }
    ensures same_count { length out.new ≡ length out.old }
{
    // Brings that the transformer's row is sound, and that elements are few.
    let _row = &case.transformers()[transformer as usize];
    limits_law();
    let weights = effective_weights(case, elements, transformer);
    let times = weight_times(weights.high_volts, unit);
    fill_scaled(&weights, times, elements.len() as u16, out);
}
