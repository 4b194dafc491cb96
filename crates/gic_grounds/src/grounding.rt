//! The network of a case with its grounds at the ends of their ranges.
ghost use Rattle.std.specs.Prelude.{◌≡◌, ◌≤◌, ◌++◌, map, unwrap_or, All, IfOk, OnOk};
ghost use Rattle.gic_case.specs.Sound.{IsSoundSubstation};
ghost use Rattle.gic_inputs.specs.Inputs.{rows_in};
ghost use Rattle.gic_model.specs.Standing.{standing_elements, stands_after};
ghost use Rattle.gic_net.specs.Net.{standing, closed_net, net_after};
ghost use Rattle.gic_varied.specs.Grounds.{regrounded};
ghost use Rattle.gic_varied.specs.Ranges.{ground_range};
ghost use Rattle.gic_winding.specs.ElementList.{elements_of};
ghost use Rattle.gic_grounds.specs.Tolerances.{tolerance_in, tolerance_at, case_ranges};
ghost use Rattle.gic_grounds.specs.Grounded.{extreme_of, extreme_network, least_network};
ghost use Rattle.gic_grounds.specs.Nets.{AreExtremesOf};

use crate::extreme::Extreme;
use crate::nets::GroundNets;
use crate::range::{least_of, most_of};
use gic_base::OutOfMemory;
use gic_case::{Case, Substation};
use gic_model::{Element, Elements, Item};
use gic_net::Net;
use gic_stand::standing_net;
use gic_switch::Switchings;
use gic_varied::laws::other_grounds_law;
use std::alloc::Global;

/// The tolerance of the ground of the substation at a place in per cent: its own, or else this.
fn tolerance_in(substations: &[Substation], percent: u8, place: u16) -> u8
    requires percent { percent ≤ 90 }
    requires sound { All IsSoundSubstation substations.now }
    ensures value { result ≡ tolerance_in substations.now percent place }
    ensures most { result ≤ 90 }
{
    match substations.get(place as usize) {
        Some(substation) => own_or(substation, percent),
        None => percent,
    }
}

/// The tolerance of a substation's ground: its own, or else this.
fn own_or(substation: &Substation, percent: u8) -> u8
    requires percent { percent ≤ 90 }
    requires sound { IsSoundSubstation substation.now }
    ensures value { result ≡ unwrap_or substation.now.tolerance percent }
    ensures most { result ≤ 90 }
{
    match substation.tolerance {
        Some(own) => own,
        None => percent,
    }
}

/// The tolerance of an item in per cent: a ground has that of its substation, every other item the one given.
fn tolerance_of(case: &Case, percent: u8, item: Item) -> u8
    requires percent { percent ≤ 90 }
    ensures value { result ≡ tolerance_at case.now percent item }
    ensures most { result ≤ 90 }
{
    match item {
        Item::Ground(place) => {
            case.keeps_rules();
            tolerance_in(case.substations(), percent, place)
        }
        Item::Line(_) | Item::Transformer(_) | Item::Neutral(_) => percent,
    }
}

/// A resistance at an end of its range.
fn resistance_at(percent: u8, extreme: Extreme, micro_ohm: u32) -> u32
    requires percent { percent ≤ 90 }
    ensures { result ≡ extreme_of extreme (ground_range percent micro_ohm) }
{
    match extreme {
        Extreme::Least => least_of(percent, micro_ohm),
        Extreme::Most => most_of(percent, micro_ohm),
    }
}

/// An element, at an end of its range where it is a ground.
fn grounded(case: &Case, percent: u8, extreme: Extreme, element: Element) -> Element
    requires percent { percent ≤ 90 }
    ensures { result ≡ regrounded (λ e. extreme_of extreme (case_ranges case.now percent e)) element }
{
    if !element.to.is_earth() {
        return element;
    }
    let tolerance = tolerance_of(case, percent, element.item);
    Element {
        micro_ohm: resistance_at(tolerance, extreme, element.micro_ohm),
        ..element
    }
}

/// The elements of a case with each ground at an end of its range, which the tolerance in per cent gives, or its own.
pub fn grounds_at(
    alloc: Global,
    case: &Case,
    percent: u8,
    elements: &Elements,
    extreme: Extreme,
) -> Result<Elements, OutOfMemory>
    requires elements { elements.now ≡ elements_of case.now }
    requires percent { percent ≤ 90 }
    ensures { IfOk result (λ grounded. grounded ≡ extreme_network extreme case.now percent) }
{
    other_grounds_law();
    elements.within_limits();
    let mut list = Vec::new(alloc);
    push_grounded(&mut list, case, percent, elements.list(), extreme)?;
    Ok(Elements::new(elements.nodes(), list))
}

/// Adds the elements, each ground at an end of its range.
fn push_grounded(
    list: &mut Vec<Element>,
    case: &Case,
    percent: u8,
    elements: &[Element],
    extreme: Extreme,
) -> Result<(), OutOfMemory>
    requires percent { percent ≤ 90 }
    ensures { OnOk result (list.new.items ≡
        list.old.items ++ map (regrounded (λ e. extreme_of extreme (case_ranges case.now percent e))) elements.now) }
{
    for element in elements {
        list.push(grounded(case, percent, extreme, *element))?;
    }
    Ok(())
}

/// The nets of a case with its grounds at the ends of their ranges, which the tolerance in per cent gives, or their own,
/// with all rows of the switchings in force.
pub fn ground_nets(
    alloc: Global,
    case: &Case,
    percent: u8,
    elements: &Elements,
    switchings: &Option<Switchings>,
) -> Result<GroundNets, OutOfMemory>
    requires elements { elements.now ≡ elements_of case.now }
    requires percent { percent ≤ 90 }
    ensures extremes { IfOk result (AreExtremesOf (elements_of case.now) (stands_after (rows_in switchings.now)) (case_ranges case.now percent)) }
    ensures least { IfOk result (λ nets. nets.least ≡ net_after (closed_net (least_network case.now percent)) (rows_in switchings.now)) }
{
    elements.within_limits();
    case.keeps_rules();
    let least = extreme_net(alloc, case, percent, elements, switchings, Extreme::Least)?;
    let most = extreme_net(alloc, case, percent, elements, switchings, Extreme::Most)?;
    Ok(GroundNets { least, most })
}

/// One of these nets.
pub(crate) fn extreme_net(
    alloc: Global,
    case: &Case,
    percent: u8,
    elements: &Elements,
    switchings: &Option<Switchings>,
    extreme: Extreme,
) -> Result<Net, OutOfMemory>
    requires elements { elements.now ≡ elements_of case.now }
    requires percent { percent ≤ 90 }
    ensures net { IfOk result (λ net. net ≡ net_after (closed_net (extreme_network extreme case.now percent)) (rows_in switchings.now)) }
    ensures network { IfOk result (λ net. net.network ≡ extreme_network extreme case.now percent) }
    ensures standing { IfOk result (λ net.
        standing net ≡ standing_elements (extreme_network extreme case.now percent) (stands_after (rows_in switchings.now))) }
{
    let grounded = grounds_at(alloc, case, percent, elements, extreme)?;
    let net = standing_net(alloc, &grounded, switchings)?;
    Ok(net)
}
