//! The view of a step, superposed from the table of an epoch's base fields.
ghost use Rattle.std.specs.Prelude.{ℕ, ◌≡◌, ◌<◌, length, IfSome};
ghost use Rattle.gic_fixed.specs.Ends.{ends_of};
ghost use Rattle.gic_model.specs.Standing.{is_live, is_standing};
ghost use Rattle.gic_net.specs.Net.{standing};
ghost use Rattle.gic_view.specs.Bounds.{FitsView};
ghost use Rattle.gic_view.specs.View.{node_at, element_at, effective_at};
ghost use Rattle.gic_view.specs.Kept.{optional_ends};
ghost use Rattle.gic_winding.specs.ElementList.{elements_of};
ghost use Rattle.gic_effective.specs.Shown.{IsSameStep};
ghost use Rattle.gic_effective.specs.ViewLengths.{HasViewLengths};
ghost use Rattle.gic_superpose.specs.Rows.{row_at, AreRowsOf};
ghost use Rattle.gic_superpose.specs.Superposed.{superposed};
ghost use Rattle.gic_base_views.specs.Superposed.{shown_where, IsSuperposedView};
ghost use Rattle.gic_base_views.specs.Table.{base_rows_of, IsTableOf};

use crate::table::BaseTable;
use gic_base::{ElementId, NodeId};
use gic_case::Case;
use gic_fixed::Interval;
use gic_induce::Fields;
use gic_net::Net;
use gic_superpose::PairRows;
use gic_view::StepView;

/// Sets all intervals of a view of a case, whose net this is, to those that the fields make of the table's rows: the
/// potential of each node in millivolts, `None` where it is dead; the current of each element in milliamperes, `None`
/// where it doesn't stand; the signed effective current of each transformer in milliamperes per phase, with no end beyond
/// 2^63 - 1 either way. The fields, in mV/km, and the table are those of the case's zones. It solves nothing, and takes no
/// memory.
pub fn fill_superposed(
    case: &Case,
    net: &Net,
    fields: &Fields,
    table: &BaseTable,
    out: &mut StepView,
)
    requires net { net.now.network ≡ elements_of case.now }
    requires table { IsTableOf case.now table.now }
    requires zones { length fields.now ≡ length case.now.zones }
    requires space { HasViewLengths case.now out.old }
    ensures view { IsSuperposedView case.now (standing net.now) fields.now (base_rows_of table.now) out.new }
    ensures small { (t : ℕ) → t < length out.new.effective → FitsView (effective_at out.new t) }
    ensures stays { IsSameStep out.old out.new }
{
    fill_nodes(net, fields, &table.nodes, out);
    fill_elements(net, fields, &table.elements, out);
    fill_effective(fields, &table.effective, out);
}

/// The interval of a node in the view.
fn node_interval(net: &Net, fields: &Fields, rows: &PairRows, node: NodeId) -> Option<Interval>
    requires rows { AreRowsOf net.now.network.nodes (length fields.now) rows.now }
    requires node { node.0 < net.now.network.nodes }
    ensures shown { optional_ends result ≡ shown_where (is_live (standing net.now) node.0) (superposed fields.now (row_at rows.now node.0)) }
    ensures fits { IfSome (optional_ends result) FitsView }
{
    if net.live(node) {
        Some(rows.superposed(fields, node.0))
    } else {
        None
    }
}

/// The interval of an element in the view.
fn element_interval(
    net: &Net,
    fields: &Fields,
    rows: &PairRows,
    element: ElementId,
) -> Option<Interval>
    requires rows { AreRowsOf (length net.now.network.list) (length fields.now) rows.now }
    requires element { element.0 < length net.now.network.list }
    ensures shown { optional_ends result ≡
        shown_where (is_standing (standing net.now) element.0) (superposed fields.now (row_at rows.now element.0)) }
    ensures fits { IfSome (optional_ends result) FitsView }
{
    if net.stands(element) {
        Some(rows.superposed(fields, element.0))
    } else {
        None
    }
}

fn fill_nodes(net: &Net, fields: &Fields, rows: &PairRows, out: &mut StepView)
    requires rows { AreRowsOf net.now.network.nodes (length fields.now) rows.now }
    requires space { length out.old.nodes ≡ net.now.network.nodes }
    ensures shown { (k : ℕ) → k < length out.new.nodes →
        node_at out.new k ≡ shown_where (is_live (standing net.now) k) (superposed fields.now (row_at rows.now k)) }
    ensures rest { out.new ≡ record out.old { nodes = out.new.nodes } }
    ensures count { length out.new.nodes ≡ length out.old.nodes }
{
    for node in 0..net.nodes() {
        let node = NodeId(node);
        out.set_node(node, node_interval(net, fields, rows, node));
    }
}

fn fill_elements(net: &Net, fields: &Fields, rows: &PairRows, out: &mut StepView)
    requires rows { AreRowsOf (length net.now.network.list) (length fields.now) rows.now }
    requires space { length out.old.elements ≡ length net.now.network.list }
    ensures shown { (place : ℕ) → place < length out.new.elements →
        element_at out.new place ≡ shown_where (is_standing (standing net.now) place) (superposed fields.now (row_at rows.now place)) }
    ensures rest { out.new ≡ record out.old { elements = out.new.elements } }
    ensures count { length out.new.elements ≡ length out.old.elements }
{
    let (_, count, _) = out.sizes();
    for place in 0..count {
        let element = ElementId(place);
        let interval = element_interval(net, fields, rows, element);
        out.set_element(element, interval);
    }
}

fn fill_effective(fields: &Fields, rows: &PairRows, out: &mut StepView)
    requires rows { AreRowsOf (length out.old.effective) (length fields.now) rows.now }
    ensures shown { (t : ℕ) → t < length out.new.effective → effective_at out.new t ≡ superposed fields.now (row_at rows.now t) }
    ensures small { (t : ℕ) → t < length out.new.effective → FitsView (effective_at out.new t) }
    ensures rest { out.new ≡ record out.old { effective = out.new.effective } }
    ensures count { length out.new.effective ≡ length out.old.effective }
{
    let (_, _, count) = out.sizes();
    for transformer in 0..count {
        let interval = rows.superposed(fields, transformer);
        out.set_effective(transformer, interval);
    }
}
