//! The weights of a transformer's windings in its effective current.
ghost use Rattle.std.specs.Prelude.{◌≡◌, ◌+◌, ◌<◌, ◌≤◌, ◌^◌, ◌++◌, length, slice_get, IfSome};
ghost use Rattle.std.specs.Option.{option_to_list};
ghost use Rattle.gic_case.specs.Windings.{windings_of};
ghost use Rattle.gic_winding.specs.ElementList.{elements_of};
ghost use Rattle.gic_winding.specs.Weights.{weight_of, weighted_windings};
ghost use Rattle.gic_winding.specs.WeightParts.{weights_of};
ghost use Rattle.gic_winding.specs.Order.{weighted_from};

use crate::order::first_winding;
use crate::weights::Weights;
use gic_base::ElementId;
use gic_base::limits::MOST_ELEMENTS;
use gic_case::{Case, Transformer, Winding};
use gic_model::Element;

/// The windings of the transformer at a place, from 0, with their weights: the rated voltage across each. A reactor's
/// winding has the weight 0, since its core has no effective current here. A delta-delta unit has no winding.
pub fn effective_weights(case: &Case, elements: &[Element], transformer: u16) -> Weights
    requires elements { elements.now ≡ (elements_of case.now).list }
    requires place { transformer < length case.now.transformers }
    ensures value { result ≡ weights_of case.now transformer }
    ensures all { weighted_windings case.now transformer ≡
        option_to_list result.first ++ (option_to_list result.second ++ option_to_list result.third) }
    ensures first_inside { IfSome result.first (λ w. w.0.0 < length elements.now) }
    ensures second_inside { IfSome result.second (λ w. w.0.0 < length elements.now) }
    ensures third_inside { IfSome result.third (λ w. w.0.0 < length elements.now) }
{
    let row = &case.transformers()[transformer as usize];
    weights_from(first_winding(elements, transformer), row)
}

/// The weights of a transformer whose first winding is at this place.
fn weights_from(first: u16, transformer: &Transformer) -> Weights
    requires { first ≤ MOST_ELEMENTS }
    ensures first { result.first ≡ slice_get (weighted_from transformer.now first) 0 }
    ensures second { result.second ≡ slice_get (weighted_from transformer.now first) 1 }
    ensures third { result.third ≡ slice_get (weighted_from transformer.now first) 2 }
    ensures high_volts { result.high_volts ≡ transformer.now.high_volts }
{
    let windings = transformer.windings();
    let windings = windings.as_slice();
    Weights {
        first: weighed(transformer, windings, first, 0),
        second: weighed(transformer, windings, first, 1),
        third: weighed(transformer, windings, first, 2),
        high_volts: transformer.high_volts,
    }
}

/// The winding of a transformer at this turn, if there is one, with its weight, where the first has this place.
#[tactic(auto, using(crate::proofs::Weighted::weighed_turn))]
fn weighed(
    transformer: &Transformer,
    windings: &[Winding],
    first: u16,
    turn: u16,
) -> Option<(ElementId, u32)>
    requires all { windings.now ≡ windings_of transformer.now }
    requires space { first + turn < 2 ^ 16 }
    ensures { result ≡ slice_get (weighted_from transformer.now first) turn }
{
    match windings.get(turn as usize) {
        Some(winding) => Some((ElementId(first + turn), weight(transformer, winding))),
        None => None,
    }
}

/// The weight of a winding of a transformer, in V.
fn weight(transformer: &Transformer, winding: &Winding) -> u32
    ensures { result ≡ weight_of transformer.now winding.now }
{
    if transformer.kind.has_effect() {
        winding.volts_across()
    } else {
        0
    }
}
