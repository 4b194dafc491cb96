//! The standing network.
ghost use Rattle.std.specs.Prelude.{◌≡◌, replicate, false, IfOk};

use crate::conductor::{Conductor, conductors, worked_out};
use crate::item_index::{ItemIndex, has_element, index_items};
use crate::row::{Row, number_of};
use crate::rows::{full_rows, gather_item};
use gic_base::limits::MOST_AT_A_NODE;
use gic_base::{ElementId, NodeId, OutOfMemory};
use gic_fixed::Divisor;
use gic_model::{Element, Elements, Item};
use std::alloc::Global;
use std::marker::Model;

/// The elements of a network, and which of their items are open.
pub struct Net {
    nodes: u16,
    list: Vec<Element>,
    /// For each number of an item whether it is open.
    opened: Vec<bool>,
    index: ItemIndex,
    rows: Vec<Row>,
    conductors: Vec<Conductor>,
}

impl Model for Net {
    ghost use Rattle.std.specs.FinSet as set;
    ghost use Rattle.std.specs.Coded.{codes, coded_ℕ};
    ghost use Rattle.std.specs.Ordering.{nat_cmp};
    ghost use Rattle.gic_net.specs.Net.{NetView};
    ghost use Rattle.gic_net.specs.Rows.{IsStored};
    ghost use Rattle.gic_net.specs.OpenSet.{open_set};
    ghost use Rattle.gic_net.specs.Conductor.{conductor_of};
    ghost use Rattle.std.specs.Prelude.{◌≡◌, map};

    ghost Value = { NetView };

    ghost coded = { Prim.hlevel (codes, set.code {R = nat_cmp} coded_ℕ) };

    ghost view = { λ a.
        record {
          network = record { nodes = a.nodes; list = a.list.items };
          open_items = open_set a.opened.items;
        } };

    ghost invariant = { λ a.
        IsStored (record { nodes = a.nodes; list = a.list.items }) a.opened.items a.index.first.items a.index.next.items a.rows.items
        × (a.conductors.items ≡ map conductor_of a.list.items) };
}

impl Drop for Net {
    /// Lets go of everything, in one step for whoever drops it.
    fn drop(self) {
        let Net {
            nodes: _nodes,
            list: _list,
            opened: _opened,
            index: _index,
            rows: _rows,
            conductors: _conductors,
        } = self;
    }
}

impl Net {
    ghost use Rattle.std.specs.Prelude.{◌≡◌, ◌<◌, ◌≤◌, length, true, IfOk, IsTrue};
    ghost use Rattle.std.specs.List.{Contains};
    ghost use Rattle.gic_model.specs.Network.{ends_at};
    ghost use Rattle.gic_model.specs.Limits.{IsWithinLimits, IsElementWithin};
    ghost use Rattle.gic_model.specs.Standing.{is_live, is_standing};
    ghost use Rattle.gic_model.specs.Conductance.{conductance_down, conductance_up};
    ghost use Rattle.gic_net.specs.Conductor.{conductor_of};
    ghost use Rattle.gic_net.specs.Net.{NetView, stands, standing, element_of, row_at, placed_at, closed_net, switched_net, is_switched, with_resistance};

    /// All elements stand.
    pub fn build(alloc: Global, elements: &Elements) -> Result<Net, OutOfMemory>
        ensures { IfOk result (λ net. net ≡ closed_net elements.now) }
    {
        let nodes = elements.nodes();
        let list = copied(alloc, elements.list())?;
        let rows = full_rows(alloc, nodes, list.as_slice())?;
        let index = index_items(alloc, list.as_slice())?;
        let opened = all_closed(alloc, index.first.len())?;
        let conductors = conductors(alloc, elements)?;
        Ok(Net {
            nodes,
            list,
            opened,
            index,
            rows,
            conductors,
        })
    }

    /// Opens or closes an item. An item that has no element changes nothing.
    pub fn switch(&mut self, item: Item, opens: bool)
        ensures { self.new ≡ switched_net self.old item opens }
    {
        let number = number_of(item) as usize;
        if has_element(self.list.as_slice(), &self.index, number) {
            self.opened[number] = opens;
            gather_item(
                self.rows.as_mut_slice(),
                self.list.as_slice(),
                self.opened.as_slice(),
                &self.index,
                number,
            );
        }
    }

    /// Gives the element at a place another resistance, in micro-ohm. What stands stays as it is.
    pub fn set_resistance(&mut self, element: ElementId, micro_ohm: u32)
        requires place { element.0 < length self.old.network.list }
        requires least { 1000 ≤ micro_ohm }
        requires most { micro_ohm ≤ 1000000000 }
        ensures { self.new ≡ record self.old { network = with_resistance self.old.network element.0 micro_ohm } }
    {
        let place = element.0 as usize;
        let changed = Element {
            micro_ohm,
            ..self.list[place]
        };
        self.conductors[place] = worked_out(changed);
        self.list[place] = changed;
    }

    /// Whether an item is open, or closed, already. One that has no element is both.
    pub fn is_switched(&self, item: Item, opens: bool) -> bool
        ensures { result ≡ is_switched self.now item opens }
    {
        let number = number_of(item) as usize;
        if !has_element(self.list.as_slice(), &self.index, number) {
            return true;
        }
        if self.opened[number] { opens } else { !opens }
    }

    /// The net is within the limits. The call computes nothing: it brings this fact to where it stands.
    pub fn within_limits(&self)
        ensures { IsWithinLimits self.now.network }
    {
        let _ = &self.nodes;
    }

    /// How many nodes there are.
    pub fn nodes(&self) -> u16
        ensures value { result ≡ self.now.network.nodes }
        ensures limits { IsWithinLimits self.now.network }
    {
        self.nodes
    }

    /// How many elements there are.
    pub fn count(&self) -> u16
        ensures value { result ≡ length self.now.network.list }
        ensures limits { IsWithinLimits self.now.network }
    {
        self.list.len() as u16
    }

    /// The elements that the net was built with, by their places.
    pub fn list(&self) -> &[Element]
        ensures value { result.now ≡ self.now.network.list }
        ensures limits { IsWithinLimits self.now.network }
    {
        self.list.as_slice()
    }

    /// The element that the net was built with.
    pub fn element(&self, element: ElementId) -> Element
        requires { element.0 < length self.now.network.list }
        ensures value { result ≡ element_of self.now.network element.0 }
        ensures within { IsElementWithin self.now.network.nodes result }
    {
        self.list[element.0 as usize]
    }

    fn conductor(&self, element: ElementId) -> Conductor
        requires { element.0 < length self.now.network.list }
        ensures { result ≡ conductor_of (element_of self.now.network element.0) }
    {
        self.conductors[element.0 as usize]
    }

    /// The resistance of an element in micro-ohm, to divide by.
    pub fn divisor(&self, element: ElementId) -> Divisor
        requires { element.0 < length self.now.network.list }
        ensures { result ≡ (element_of self.now.network element.0).micro_ohm }
    {
        self.conductor(element).divisor
    }

    /// The conductance of an element in units of 2^-20 siemens, rounded down.
    pub fn conductance(&self, element: ElementId) -> u64
        requires { element.0 < length self.now.network.list }
        ensures { result ≡ conductance_down (element_of self.now.network element.0) }
    {
        self.conductor(element).down
    }

    /// The conductance of an element in units of 2^-20 siemens, rounded up.
    pub fn conductance_up(&self, element: ElementId) -> u64
        requires { element.0 < length self.now.network.list }
        ensures { result ≡ conductance_up (element_of self.now.network element.0) }
    {
        self.conductor(element).up
    }

    /// Whether the element stands.
    pub fn stands(&self, element: ElementId) -> bool
        requires { element.0 < length self.now.network.list }
        ensures value { result ≡ stands self.now (element_of self.now.network element.0).item }
        ensures place { result ≡ is_standing (standing self.now) element.0 }
        ensures listed { IsTrue result → Contains (standing self.now) (element.0, element_of self.now.network element.0) }
    {
        !self.opened[number_of(self.list[element.0 as usize].item) as usize]
    }

    /// Whether a standing element ends at the node.
    pub fn live(&self, node: NodeId) -> bool
        requires { node.0 < self.now.network.nodes }
        ensures { result ≡ is_live (standing self.now) node.0 }
    {
        self.degree(node) > 0
    }

    /// How many standing elements end at the node.
    pub fn degree(&self, node: NodeId) -> u16
        requires { node.0 < self.now.network.nodes }
        ensures value { result ≡ length (row_at self.now node.0) }
        ensures few { result ≤ MOST_AT_A_NODE }
    {
        self.rows[node.0 as usize].degree() as u16
    }

    /// One of them, in the order of the elements.
    pub fn element_at(&self, node: NodeId, place: u16) -> ElementId
        requires node { node.0 < self.now.network.nodes }
        requires place { place < length (row_at self.now node.0) }
        ensures value { placed_at self.now node.0 place ≡ (result.0, element_of self.now.network result.0) }
        ensures inside { result.0 < length self.now.network.list }
        ensures within { IsElementWithin self.now.network.nodes (element_of self.now.network result.0) }
        ensures ends { ends_at (element_of self.now.network result.0) node.0 ≡ true }
    {
        ElementId(self.rows[node.0 as usize].element_at(place as usize))
    }
}

fn copied(alloc: Global, list: &[Element]) -> Result<Vec<Element>, OutOfMemory>
    ensures { IfOk result (λ copy. copy.items ≡ list.now) }
{
    let copy = Vec::from_slice(alloc, list)?;
    Ok(copy)
}

fn all_closed(alloc: Global, count: usize) -> Result<Vec<bool>, OutOfMemory>
    ensures { IfOk result (λ opened. opened.items ≡ replicate count false) }
{
    let opened = vec![in alloc; false; count]?;
    Ok(opened)
}
