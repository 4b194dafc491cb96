//! Whether a transformer has an effective current at all.
ghost use Rattle.std.specs.Prelude.{◌≡◌, ◌<◌, length, IsTrue, IsFalse, IfSome};
ghost use Rattle.gic_effective.specs.RightView.{HasNoEffect};
ghost use Rattle.gic_net.specs.Net.{standing};
ghost use Rattle.gic_winding.specs.ElementList.{elements_of};
ghost use Rattle.gic_grounds.specs.Effect.{HasNoPart};

use crate::nets::GroundNets;
use gic_base::ElementId;
use gic_case::Case;
use gic_model::Element;
use gic_net::Net;
use gic_winding::effective_weights;

/// Whether a winding is there, stands and has a weight.
fn has_part(net: &Net, winding: Option<(ElementId, u32)>) -> bool
    requires { IfSome winding (λ w. w.0.0 < length net.now.network.list) }
    ensures none { IsFalse result → IfSome winding (HasNoPart (standing net.now)) }
    ensures some { IsTrue result → IfSome winding (HasNoPart (standing net.now)) → ⊥ }
{
    match winding {
        Some((element, weight)) => net.stands(element) && weight > 0,
        None => false,
    }
}

/// Whether a winding of a transformer stands that has a weight. The elements are those of the case; the nets have as many.
pub(crate) fn has_effect(
    case: &Case,
    elements: &[Element],
    nets: &GroundNets,
    transformer: u16,
) -> bool
    requires elements { elements.now ≡ (elements_of case.now).list }
    requires count { length nets.now.least.network.list ≡ length elements.now }
    requires place { transformer < length case.now.transformers }
    ensures none { IsFalse result → HasNoEffect case.now (standing nets.now.least) transformer }
    ensures some { IsTrue result → HasNoEffect case.now (standing nets.now.least) transformer → ⊥ }
{
    let weights = effective_weights(case, elements, transformer);
    let first = has_part(&nets.least, weights.first);
    let second = has_part(&nets.least, weights.second);
    let third = has_part(&nets.least, weights.third);
    first || second || third
}
