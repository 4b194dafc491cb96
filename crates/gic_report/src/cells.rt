//! The intervals of a view, one after another. Past the last there is none, and of the transformers one that holds 0
//! alone.
ghost use Rattle.std.specs.Prelude.{◌≡◌, ◌<◌, None, drop, length, slice_index_or};
ghost use Rattle.gic_fixed.specs.Ends.{ends_of};
ghost use Rattle.gic_view.specs.Kept.{optional_ends};
ghost use Rattle.gic_report.specs.Cells.{first_cell, first_ends, listed_cells};

use crate::listed::Listed;
use gic_base::{ElementId, NodeId};
use gic_fixed::Interval;
use gic_view::StepView;
use std::marker::Model;

/// How many intervals there are.
fn count(listed: Listed, view: &StepView) -> u16
    ensures { result ≡ length (listed_cells listed view.now) }
{
    let (nodes, elements, _) = view.sizes();
    match listed {
        Listed::Nodes => nodes,
        Listed::Elements => elements,
    }
}

/// The interval at a place.
fn cell_at(listed: Listed, view: &StepView, place: u16) -> Option<Interval>
    requires { place < length (listed_cells listed view.now) }
    ensures { optional_ends result ≡ slice_index_or (listed_cells listed view.now) place None }
{
    match listed {
        Listed::Nodes => view.node(NodeId(place)),
        Listed::Elements => view.element(ElementId(place)),
    }
}

/// The intervals of the nodes from one on, in mV, or those of the elements, in mA; it is seen as their list.
#[derive(Drop)]
pub(crate) struct Cells<'a> {
    source: &'a StepView,
    listed: Listed,
    next: u16,
}

impl<'a> Model for Cells<'a> {
    ghost use Rattle.std.specs.Prelude.{List, Option, drop};
    ghost use Rattle.gic_fixed.specs.Ends.{Ends};
    ghost use Rattle.gic_report.specs.Cells.{listed_cells};

    ghost Value = { List (Option Ends) };

    ghost view = { λ c. drop c.next (listed_cells c.listed c.source.now) };
}

impl<'a> Cells<'a> {
    /// The intervals of all nodes.
    pub fn of_nodes(source: &'a StepView) -> Cells<'a>
        ensures { result ≡ source.now.nodes }
    {
        Cells {
            source,
            listed: Listed::Nodes,
            next: 0,
        }
    }

    /// The intervals of all elements.
    pub fn of_elements(source: &'a StepView) -> Cells<'a>
        ensures { result ≡ source.now.elements }
    {
        Cells {
            source,
            listed: Listed::Elements,
            next: 0,
        }
    }

    /// The next interval.
    pub fn take(&mut self) -> Option<Interval>
        ensures cell { optional_ends result ≡ first_cell self.old }
        ensures left { self.new ≡ drop 1 self.old }
    {
        if self.next >= count(self.listed, self.source) {
            return None;
        }
        let cell = cell_at(self.listed, self.source, self.next);
        self.next += 1;
        cell
    }
}

/// The signed intervals of the transformers from one on, in mA per phase; it is seen as their list.
#[derive(Drop)]
pub(crate) struct EffectiveCells<'a> {
    source: &'a StepView,
    next: u16,
}

impl<'a> Model for EffectiveCells<'a> {
    ghost use Rattle.std.specs.Prelude.{List, drop};
    ghost use Rattle.gic_fixed.specs.Ends.{Ends};

    ghost Value = { List Ends };

    ghost view = { λ c. drop c.next c.source.now.effective };
}

impl<'a> EffectiveCells<'a> {
    /// The intervals of all transformers.
    pub fn of(source: &'a StepView) -> EffectiveCells<'a>
        ensures { result ≡ source.now.effective }
    {
        EffectiveCells { source, next: 0 }
    }

    /// The next interval; past the last it holds 0 alone.
    pub fn take(&mut self) -> Interval
        ensures cell { ends_of result ≡ first_ends self.old }
        ensures left { self.new ≡ drop 1 self.old }
    {
        let (_, _, transformers) = self.source.sizes();
        if self.next >= transformers {
            return Interval::point(0);
        }
        let cell = self.source.effective(self.next);
        self.next += 1;
        cell
    }
}
