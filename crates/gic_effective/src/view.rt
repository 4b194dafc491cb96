//! The view of a step.
ghost use Rattle.std.specs.Prelude.{◌≡◌, ℕ, ◌<◌, length, ℤ, IfOk, IfSome};
ghost use Rattle.gic_fixed.specs.Ends.{ends_of};
ghost use Rattle.gic_model.specs.Sharp.{IsSharp};
ghost use Rattle.gic_model.specs.Voltages.{number_at};
ghost use Rattle.gic_net.specs.Net.{standing};
ghost use Rattle.gic_enclose.specs.Ends.{low_at, high_at};
ghost use Rattle.gic_view.specs.Bounds.{FitsView};
ghost use Rattle.gic_view.specs.View.{node_at, element_at, effective_at};
ghost use Rattle.gic_view.specs.Kept.{blank_view, optional_ends};
ghost use Rattle.gic_winding.specs.ElementList.{elements_of};
ghost use Rattle.gic_effective.specs.Holds.{AreOfNetwork, HoldsSolutions};
ghost use Rattle.gic_effective.specs.RightView.{IsRightView};
ghost use Rattle.gic_effective.specs.Narrow.{IsNarrowView};
ghost use Rattle.gic_effective.specs.Shown.{IsShownNode, IsShownElement, IsShownEffective, IsSameStep};
ghost use Rattle.gic_effective.specs.ViewLengths.{HasViewLengths};

use crate::current::{current_na, milli};
use crate::effective::signed_effective;
use crate::potential::potential_mv;
use crate::winding::winding_current;
use crate::winding_currents::WindingCurrents;
use gic_base::{ElementId, NodeId, OutOfMemory};
use gic_case::Case;
use gic_enclose::Potentials;
use gic_fixed::Interval;
use gic_model::Volts;
use gic_net::Net;
use gic_view::StepView;
use gic_winding::effective_weights;
use std::alloc::Global;

/// A view of a case whose elements these are, with no interval yet: no node is live, no element stands, and no
/// transformer has a current. Its number and its time are 0.
pub fn view_of_case(alloc: Global, case: &Case, net: &Net) -> Result<StepView, OutOfMemory>
    requires { net.now.network ≡ elements_of case.now }
    ensures lengths { IfOk result (HasViewLengths case.now) }
    ensures blank { IfOk result (λ view.
        view ≡ blank_view (elements_of case.now).nodes (length (elements_of case.now).list) (length case.now.transformers)) }
{
    let transformers = case.transformers().len() as u16;
    let view = StepView::new(alloc, net.nodes(), net.count(), transformers)?;
    Ok(view)
}

/// Sets all intervals of a view of a case, whose net this is: the potential of each node in millivolts, `None` where it
/// is dead; the current of each element in milliamperes, `None` where it doesn't stand; the signed effective current of
/// each transformer in milliamperes per phase, in which an open winding counts as 0, with no end beyond 2^63 - 1 either way.
pub fn fill_view(case: &Case, net: &Net, volts: &Volts, potentials: &Potentials, out: &mut StepView)
    requires net { net.now.network ≡ elements_of case.now }
    requires together { AreOfNetwork net.now.network volts.now potentials.now }
    requires space { HasViewLengths case.now out.old }
    ensures right { HoldsSolutions (standing net.now) (number_at volts.now) potentials.now →
        IsRightView case.now (standing net.now) (number_at volts.now) out.new }

    // Where the potentials are sharp for a width, no interval of the view is more than one wider.
    ensures narrow { (width wider : ℕ) → width < wider →
        IsSharp (standing net.now) (number_at volts.now) (low_at potentials.now) (high_at potentials.now) width →
        IsNarrowView case.now wider out.new }
    ensures small { (t : ℕ) → t < length out.new.effective → FitsView (effective_at out.new t) }
    ensures lengths { HasViewLengths case.now out.new }
    ensures stays { IsSameStep out.old out.new }
{
    fill_nodes(net, potentials, out);
    fill_elements(net, volts, potentials, out);
    fill_effective(case, net, volts, potentials, out);
}

/// The interval of a node in the view.
fn node_interval(net: &Net, potentials: &Potentials, node: NodeId) -> Option<Interval>
    requires potentials { length potentials.now ≡ net.now.network.nodes }
    requires node { node.0 < net.now.network.nodes }
    ensures shown { (volts : ℕ → ℤ) → IsShownNode (standing net.now) volts potentials.now node.0 (optional_ends result) }
    ensures fits { IfSome (optional_ends result) FitsView }
{
    if net.live(node) {
        Some(potential_mv(potentials, node))
    } else {
        None
    }
}

/// The interval of an element in the view.
fn element_interval(
    net: &Net,
    volts: &Volts,
    potentials: &Potentials,
    element: ElementId,
) -> Option<Interval>
    requires together { AreOfNetwork net.now.network volts.now potentials.now }
    requires element { element.0 < length net.now.network.list }
    ensures shown { IsShownElement (standing net.now) (number_at volts.now) potentials.now element.0 (optional_ends result) }
    ensures fits { IfSome (optional_ends result) FitsView }
{
    if net.stands(element) {
        Some(milli(current_na(net, volts, potentials, element)))
    } else {
        None
    }
}

/// The interval of a transformer in the view: its signed effective current in milliamperes per phase, in which an open
/// winding counts as 0, with no end beyond 2^63 - 1 either way.
pub fn effective_interval(
    case: &Case,
    net: &Net,
    volts: &Volts,
    potentials: &Potentials,
    transformer: u16,
) -> Interval
    requires net { net.now.network ≡ elements_of case.now }
    requires together { AreOfNetwork net.now.network volts.now potentials.now }
    requires place { transformer < length case.now.transformers }
    ensures { IsShownEffective case.now (standing net.now) (number_at volts.now) potentials.now transformer (ends_of result) }
{
    // Brings that the transformer's row is sound.
    let _row = &case.transformers()[transformer as usize];
    let weights = effective_weights(case, net.list(), transformer);
    let first = winding_current(net, volts, potentials, weights.first);
    let second = winding_current(net, volts, potentials, weights.second);
    let third = winding_current(net, volts, potentials, weights.third);
    let currents = WindingCurrents {
        first,
        second,
        third,
    };
    signed_effective(&weights, &currents)
}

fn fill_nodes(net: &Net, potentials: &Potentials, out: &mut StepView)
    requires potentials { length potentials.now ≡ net.now.network.nodes }
    requires space { length out.old.nodes ≡ net.now.network.nodes }
    ensures shown { (volts : ℕ → ℤ) (k : ℕ) → k < length out.new.nodes →
        IsShownNode (standing net.now) volts potentials.now k (node_at out.new k) }
    ensures rest { out.new ≡ record out.old { nodes = out.new.nodes } }
    ensures count { length out.new.nodes ≡ length out.old.nodes }
{
    for node in 0..net.nodes() {
        let node = NodeId(node);
        out.set_node(node, node_interval(net, potentials, node));
    }
}

fn fill_elements(net: &Net, volts: &Volts, potentials: &Potentials, out: &mut StepView)
    requires together { AreOfNetwork net.now.network volts.now potentials.now }
    requires space { length out.old.elements ≡ length net.now.network.list }
    ensures shown { (place : ℕ) → place < length out.new.elements →
        IsShownElement (standing net.now) (number_at volts.now) potentials.now place (element_at out.new place) }
    ensures rest { out.new ≡ record out.old { elements = out.new.elements } }
    ensures count { length out.new.elements ≡ length out.old.elements }
{
    let (_, count, _) = out.sizes();
    for place in 0..count {
        let element = ElementId(place);
        let interval = element_interval(net, volts, potentials, element);
        out.set_element(element, interval);
    }
}

fn fill_effective(
    case: &Case,
    net: &Net,
    volts: &Volts,
    potentials: &Potentials,
    out: &mut StepView,
)
    requires net { net.now.network ≡ elements_of case.now }
    requires together { AreOfNetwork net.now.network volts.now potentials.now }
    requires space { length out.old.effective ≡ length case.now.transformers }
    ensures shown { (t : ℕ) → t < length out.new.effective →
        IsShownEffective case.now (standing net.now) (number_at volts.now) potentials.now t (effective_at out.new t) }
    ensures rest { out.new ≡ record out.old { effective = out.new.effective } }
    ensures count { length out.new.effective ≡ length out.old.effective }
{
    let (_, _, count) = out.sizes();
    for transformer in 0..count {
        let interval = effective_interval(case, net, volts, potentials, transformer);
        out.set_effective(transformer, interval);
    }
}
