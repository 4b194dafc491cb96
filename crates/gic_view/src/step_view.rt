//! The view of a step.
ghost use Rattle.std.specs.Prelude.{◌≡◌, length, map, replicate, IfOk, None};
ghost use Rattle.gic_fixed.specs.Ends.{zero_ends};
ghost use Rattle.gic_view.specs.KeptEnds.{kept_ends, cell_ends};

use crate::keeping::{cell_of, interval_if_shown, interval_of, keep, keep_if_shown, kept_in};
use crate::kept::{Cell, Kept};
use gic_base::{ElementId, NodeId, OutOfMemory};
use gic_fixed::Interval;
use std::alloc::Global;
use std::marker::Model;

/// What a step shows: its number and its time in seconds, an interval of each node's potential in millivolts (`None`
/// where it is dead), of each element's current in milliamperes (`None` where it doesn't stand), and of each
/// transformer's signed effective current in milliamperes per phase.
pub struct StepView {
    number: u32,
    time: u32,
    nodes: Vec<Cell>,
    elements: Vec<Cell>,
    effective: Vec<Kept>,
}

impl Model for StepView {
    ghost use Rattle.std.specs.Prelude.{map, length};
    ghost use Rattle.gic_view.specs.View.{View};
    ghost use Rattle.gic_view.specs.Kept.{AreFew};
    ghost use Rattle.gic_view.specs.KeptEnds.{kept_ends, cell_ends};

    ghost Value = { View };

    ghost view = { λ v. record {
      number = v.number;
      time = v.time;
      nodes = map cell_ends v.nodes.items;
      elements = map cell_ends v.elements.items;
      effective = map kept_ends v.effective.items;
    } };

    ghost invariant = { λ v. AreFew (length v.nodes.items) (length v.elements.items) (length v.effective.items) };
}

impl Drop for StepView {
    /// Lets go of everything, in one step for whoever drops it.
    fn drop(self) {
        let StepView {
            number: _number,
            time: _time,
            nodes: _nodes,
            elements: _elements,
            effective: _effective,
        } = self;
    }
}

/// No intervals.
fn absent(alloc: Global, count: u16) -> Result<Vec<Cell>, OutOfMemory>
    ensures { IfOk result (λ list. map cell_ends list.items ≡ replicate count None) }
{
    let list = vec![in alloc; cell_of(None); count as usize]?;
    Ok(list)
}

/// Intervals that hold 0 alone.
fn points(alloc: Global, count: u16) -> Result<Vec<Kept>, OutOfMemory>
    ensures count { IfOk result (λ list. length list.items ≡ count) }
    ensures zeros { IfOk result (λ list. map kept_ends list.items ≡ replicate count zero_ends) }
{
    let zero = keep(Interval::point(0));
    let list = vec![in alloc; zero; count as usize]?;
    Ok(list)
}

impl StepView {
    ghost use Rattle.std.specs.Prelude.{◌≡◌, ◌<◌, length, slice_set, IfOk, IfSome};
    ghost use Rattle.gic_fixed.specs.Ends.{ends_of};
    ghost use Rattle.gic_view.specs.Bounds.{FitsView};
    ghost use Rattle.gic_view.specs.View.{node_at, element_at, effective_at};
    ghost use Rattle.gic_view.specs.Kept.{optional_ends, blank_view};
    ghost use Rattle.gic_view.specs.KeptEnds.{kept_ends, optional_kept};

    /// A view over these numbers of nodes, elements and transformers, in which no node is live, no element stands and
    /// no transformer has a current. Its number and its time are 0.
    pub fn new(
        alloc: Global,
        nodes: u16,
        elements: u16,
        transformers: u16,
    ) -> Result<StepView, OutOfMemory>
        ensures { IfOk result (λ view. view ≡ blank_view nodes elements transformers) }
    {
        let nodes = absent(alloc, nodes)?;
        let elements = absent(alloc, elements)?;
        let effective = points(alloc, transformers)?;
        Ok(StepView {
            number: 0,
            time: 0,
            nodes,
            elements,
            effective,
        })
    }

    /// The numbers of nodes, elements and transformers.
    pub fn sizes(&self) -> (u16, u16, u16)
        ensures { result ≡ (length self.now.nodes, length self.now.elements, length self.now.effective) }
    {
        (
            self.nodes.len() as u16,
            self.elements.len() as u16,
            self.effective.len() as u16,
        )
    }

    /// The step's number.
    pub fn number(&self) -> u32
        ensures { result ≡ self.now.number }
    {
        self.number
    }

    /// The step's time, in seconds.
    pub fn time(&self) -> u32
        ensures { result ≡ self.now.time }
    {
        self.time
    }

    /// The interval of a node's potential in millivolts, `None` where it is dead.
    pub fn node(&self, node: NodeId) -> Option<Interval>
        requires { node.0 < length self.now.nodes }
        ensures { optional_ends result ≡ node_at self.now node.0 }
    {
        interval_if_shown(self.kept_node(node))
    }

    /// The same as it is kept.
    #[inline(always)]
    pub(crate) fn kept_node(&self, node: NodeId) -> Option<Kept>
        requires { node.0 < length self.now.nodes }
        ensures { optional_kept result ≡ node_at self.now node.0 }
    {
        kept_in(self.nodes[node.0 as usize])
    }

    /// The interval of an element's current in milliamperes, `None` where it doesn't stand.
    pub fn element(&self, element: ElementId) -> Option<Interval>
        requires { element.0 < length self.now.elements }
        ensures { optional_ends result ≡ element_at self.now element.0 }
    {
        interval_if_shown(self.kept_element(element))
    }

    /// The same as it is kept.
    #[inline(always)]
    pub(crate) fn kept_element(&self, element: ElementId) -> Option<Kept>
        requires { element.0 < length self.now.elements }
        ensures { optional_kept result ≡ element_at self.now element.0 }
    {
        kept_in(self.elements[element.0 as usize])
    }

    /// The interval of a transformer's signed effective current in milliamperes per phase.
    pub fn effective(&self, transformer: u16) -> Interval
        requires { transformer < length self.now.effective }
        ensures { ends_of result ≡ effective_at self.now transformer }
    {
        interval_of(self.kept_effective(transformer))
    }

    /// The same as it is kept.
    #[inline(always)]
    pub(crate) fn kept_effective(&self, transformer: u16) -> Kept
        requires { transformer < length self.now.effective }
        ensures { kept_ends result ≡ effective_at self.now transformer }
    {
        self.effective[transformer as usize]
    }

    /// Changes the number alone.
    pub fn set_number(&mut self, number: u32)
        ensures { self.new ≡ record self.old { number = number } }
    {
        self.number = number;
    }

    /// Changes the time alone, in seconds.
    pub fn set_time(&mut self, time: u32)
        ensures { self.new ≡ record self.old { time = time } }
    {
        self.time = time;
    }

    /// Changes the interval of this node alone, in millivolts. No end is beyond 2^63 - 1 either way.
    #[inline(always)]
    pub fn set_node(&mut self, node: NodeId, interval: Option<Interval>)
        requires place { node.0 < length self.old.nodes }
        requires fits { IfSome (optional_ends interval) FitsView }
        ensures { self.new ≡ record self.old { nodes = slice_set self.old.nodes node.0 (optional_ends interval) } }
    {
        self.keep_node(node, keep_if_shown(interval));
    }

    /// The same of an interval that is kept.
    #[inline(always)]
    pub(crate) fn keep_node(&mut self, node: NodeId, kept: Option<Kept>)
        requires { node.0 < length self.old.nodes }
        ensures { self.new ≡ record self.old { nodes = slice_set self.old.nodes node.0 (optional_kept kept) } }
    {
        self.nodes[node.0 as usize] = cell_of(kept);
    }

    /// Changes the interval of this element alone, in milliamperes. No end is beyond 2^63 - 1 either way.
    #[inline(always)]
    pub fn set_element(&mut self, element: ElementId, interval: Option<Interval>)
        requires place { element.0 < length self.old.elements }
        requires fits { IfSome (optional_ends interval) FitsView }
        ensures { self.new ≡ record self.old { elements = slice_set self.old.elements element.0 (optional_ends interval) } }
    {
        self.keep_element(element, keep_if_shown(interval));
    }

    /// The same of an interval that is kept.
    #[inline(always)]
    pub(crate) fn keep_element(&mut self, element: ElementId, kept: Option<Kept>)
        requires { element.0 < length self.old.elements }
        ensures { self.new ≡ record self.old { elements = slice_set self.old.elements element.0 (optional_kept kept) } }
    {
        self.elements[element.0 as usize] = cell_of(kept);
    }

    /// Changes the interval of this transformer alone, in milliamperes per phase. No end is beyond 2^63 - 1 either way.
    #[inline(always)]
    pub fn set_effective(&mut self, transformer: u16, interval: Interval)
        requires place { transformer < length self.old.effective }
        requires fits { FitsView (ends_of interval) }
        ensures { self.new ≡ record self.old { effective = slice_set self.old.effective transformer (ends_of interval) } }
    {
        self.keep_effective(transformer, keep(interval));
    }

    /// The same of an interval that is kept.
    #[inline(always)]
    pub(crate) fn keep_effective(&mut self, transformer: u16, kept: Kept)
        requires { transformer < length self.old.effective }
        ensures { self.new ≡ record self.old { effective = slice_set self.old.effective transformer (kept_ends kept) } }
    {
        self.effective[transformer as usize] = kept;
    }
}
