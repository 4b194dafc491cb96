//! The intervals of a zone's base fields, written into rows.
ghost use Rattle.std.specs.Prelude.{ℕ, ◌≡◌, ◌<◌, length, IsTrue};
ghost use Rattle.gic_model.specs.Standing.{IsLive, is_standing};
ghost use Rattle.gic_model.specs.Voltages.{number_at};
ghost use Rattle.gic_net.specs.Net.{standing};
ghost use Rattle.gic_winding.specs.ElementList.{elements_of};
ghost use Rattle.gic_superpose.specs.Superposed.{zone_at};
ghost use Rattle.gic_superpose.specs.Pairs.{zone_of, IsSmallPair};
ghost use Rattle.gic_superpose.specs.Rows.{row_at, AreRowsOf};
ghost use Rattle.gic_base_views.specs.BaseRows.{IsCertifiedPair, IsCertifiedEffective};
ghost use Rattle.gic_base_views.specs.BaseFields.{IsSolvedIn};
ghost use Rattle.gic_base_views.specs.Table.{OthersStay};

use crate::effective::base_effective;
use crate::intervals::{base_current, base_potential};
use crate::workspace::BaseField;
use gic_base::{ElementId, NodeId};
use gic_case::Case;
use gic_fixed::Interval;
use gic_net::Net;
use gic_superpose::{PairRows, ZonePair};

/// The intervals of a node's potential in two base fields.
fn node_pair(net: &Net, north: &BaseField, east: &BaseField, node: NodeId) -> ZonePair
    requires node { node.0 < net.now.network.nodes }
    requires north { IsSolvedIn net.now.network (standing net.now) north.now }
    requires east { IsSolvedIn net.now.network (standing net.now) east.now }
    ensures certified { IsLive (standing net.now) node.0 →
        IsCertifiedPair (standing net.now) (number_at north.now.volts) (number_at east.now.volts) (λ s. s.potential node.0) 1
        (zone_of result) }
    ensures small { IsSmallPair result }
{
    ZonePair {
        north: base_potential(&north.potentials, node),
        east: base_potential(&east.potentials, node),
    }
}

/// The intervals of an element's current, 0 where it doesn't stand.
fn element_pair(net: &Net, north: &BaseField, east: &BaseField, element: ElementId) -> ZonePair
    requires element { element.0 < length net.now.network.list }
    requires north { IsSolvedIn net.now.network (standing net.now) north.now }
    requires east { IsSolvedIn net.now.network (standing net.now) east.now }
    ensures certified { IsTrue (is_standing (standing net.now) element.0) →
        IsCertifiedPair (standing net.now) (number_at north.now.volts) (number_at east.now.volts) (λ s. s.current element.0) 1
        (zone_of result) }
    ensures small { IsSmallPair result }
{
    if net.stands(element) {
        ZonePair {
            north: base_current(net, &north.volts, &north.potentials, element),
            east: base_current(net, &east.volts, &east.potentials, element),
        }
    } else {
        ZonePair {
            north: Interval::point(0),
            east: Interval::point(0),
        }
    }
}

/// The intervals of a transformer's effective current.
fn effective_pair(
    case: &Case,
    net: &Net,
    north: &BaseField,
    east: &BaseField,
    transformer: u16,
) -> ZonePair
    requires net { net.now.network ≡ elements_of case.now }
    requires place { transformer < length case.now.transformers }
    requires north { IsSolvedIn net.now.network (standing net.now) north.now }
    requires east { IsSolvedIn net.now.network (standing net.now) east.now }
    ensures certified { IsCertifiedEffective case.now (standing net.now) (number_at north.now.volts) (number_at east.now.volts) transformer
        (zone_of result) }
    ensures small { IsSmallPair result }
{
    ZonePair {
        north: base_effective(case, net, &north.volts, &north.potentials, transformer),
        east: base_effective(case, net, &east.volts, &east.potentials, transformer),
    }
}

/// Writes the pair of each node into the rows of the nodes, for one zone.
pub(crate) fn write_nodes(
    net: &Net,
    zone: u16,
    north: &BaseField,
    east: &BaseField,
    rows: &mut PairRows,
)
    requires north { IsSolvedIn net.now.network (standing net.now) north.now }
    requires east { IsSolvedIn net.now.network (standing net.now) east.now }
    requires zone { zone < rows.old.zones }
    requires rows { rows.old.places ≡ net.now.network.nodes }
    ensures certified { (k : ℕ) → IsLive (standing net.now) k →
        IsCertifiedPair (standing net.now) (number_at north.now.volts) (number_at east.now.volts) (λ s. s.potential k) 1
        (zone_at (row_at rows.new k) zone) }
    ensures others { OthersStay zone rows.old rows.new }
    ensures shape { AreRowsOf rows.old.places rows.old.zones rows.new }
{
    for node in 0..net.nodes() {
        let pair = node_pair(net, north, east, NodeId(node));
        rows.set(node, zone, pair);
    }
}

/// Writes the pair of each element into the rows of the elements, for one zone.
pub(crate) fn write_elements(
    net: &Net,
    zone: u16,
    north: &BaseField,
    east: &BaseField,
    rows: &mut PairRows,
)
    requires north { IsSolvedIn net.now.network (standing net.now) north.now }
    requires east { IsSolvedIn net.now.network (standing net.now) east.now }
    requires zone { zone < rows.old.zones }
    requires rows { rows.old.places ≡ length net.now.network.list }
    ensures certified { (place : ℕ) → IsTrue (is_standing (standing net.now) place) →
        IsCertifiedPair (standing net.now) (number_at north.now.volts) (number_at east.now.volts) (λ s. s.current place) 1
        (zone_at (row_at rows.new place) zone) }
    ensures others { OthersStay zone rows.old rows.new }
    ensures shape { AreRowsOf rows.old.places rows.old.zones rows.new }
{
    for place in 0..net.count() {
        let pair = element_pair(net, north, east, ElementId(place));
        rows.set(place, zone, pair);
    }
}

/// Writes the pair of each transformer into the rows of the transformers, for one zone.
pub(crate) fn write_effective(
    case: &Case,
    net: &Net,
    zone: u16,
    north: &BaseField,
    east: &BaseField,
    rows: &mut PairRows,
)
    requires net { net.now.network ≡ elements_of case.now }
    requires north { IsSolvedIn net.now.network (standing net.now) north.now }
    requires east { IsSolvedIn net.now.network (standing net.now) east.now }
    requires zone { zone < rows.old.zones }
    requires rows { rows.old.places ≡ length case.now.transformers }
    ensures certified { (t : ℕ) → t < length case.now.transformers →
        IsCertifiedEffective case.now (standing net.now) (number_at north.now.volts) (number_at east.now.volts) t
        (zone_at (row_at rows.new t) zone) }
    ensures others { OthersStay zone rows.old rows.new }
    ensures shape { AreRowsOf rows.old.places rows.old.zones rows.new }
{
    for transformer in 0..case.transformers().len() as u16 {
        let pair = effective_pair(case, net, north, east, transformer);
        rows.set(transformer, zone, pair);
    }
}
