//! The peaks of the views seen so far.
ghost use Rattle.std.specs.Prelude.{◌≡◌, ℕ, ◌<◌, length, option_map, All, IfSome, ◌≤ℤ◌};
ghost use Rattle.gic_view.specs.View.{node_at, element_at, effective_at};
ghost use Rattle.gic_view.specs.KeptEnds.{kept_ends, optional_kept};
ghost use Rattle.gic_view.specs.Peaks.{greater, greater_ends};
ghost use Rattle.gic_view.specs.Absolute.{absolute_ends, HasAbsolute};

use crate::kept::Kept;
use crate::step_view::StepView;
use gic_base::{ElementId, NodeId, OutOfMemory};
use std::alloc::Global;
use std::marker::Model;

/// The peaks of the views seen so far: for each node in millivolts and each element in milliamperes the greatest low
/// end and the greatest high end of its absolute intervals, `None` where no view showed one; for each transformer the
/// same in milliamperes per phase, 0 to 0 before the first view.
#[derive(Drop)]
pub struct Peaks {
    view: StepView,
}

impl Model for Peaks {
    ghost use Rattle.gic_view.specs.View.{View};

    ghost Value = { View };

    ghost view = { λ peaks. peaks.view };
}

impl Peaks {
    ghost use Rattle.std.specs.Prelude.{◌≡◌, List, [], ◌∷◌, ◌++◌, IfOk};
    ghost use Rattle.gic_view.specs.View.{View};
    ghost use Rattle.gic_view.specs.Kept.{blank_view};
    ghost use Rattle.gic_view.specs.Peaks.{HasAbsolutes, HasLengthsOf, IsPeaksOf};

    /// The peaks of no view, over these numbers of nodes, elements and transformers.
    pub fn new(
        alloc: Global,
        nodes: u16,
        elements: u16,
        transformers: u16,
    ) -> Result<Peaks, OutOfMemory>
        ensures blank { IfOk result (λ peaks. peaks ≡ blank_view nodes elements transformers) }
        ensures of_none { IfOk result (IsPeaksOf []) }
    {
        let view = StepView::new(alloc, nodes, elements, transformers)?;
        Ok(Peaks { view })
    }

    /// Takes one more view. It has as many nodes, elements and transformers as the peaks, and none of its intervals
    /// begins at -2^127, which has no absolute value of 128 bits.
    pub fn see(&mut self, view: &StepView)
        requires lengths { HasLengthsOf self.old view.now }
        requires absolutes { HasAbsolutes view.now }
        ensures peaks { (views : List View) → IsPeaksOf views self.old → IsPeaksOf (views ++ view.now ∷ []) self.new }
        ensures lengths { HasLengthsOf self.old self.new }
        ensures rest { self.new ≡ record self.old { nodes = self.new.nodes; elements = self.new.elements; effective = self.new.effective } }
    {
        see_nodes(&mut self.view, view);
        see_elements(&mut self.view, view);
        see_transformers(&mut self.view, view);
    }

    /// The peaks, as a view with the number 0 and the time 0.
    pub fn view(&self) -> &StepView
        ensures { result.now ≡ self.now }
    {
        &self.view
    }
}

/// The absolute values of an interval that is kept; they begin at 0 where it holds 0.
#[inline(always)]
fn absolute(kept: Kept) -> Kept
    ensures { kept_ends result ≡ absolute_ends (kept_ends kept) }
{
    let turned_lo = -kept.hi;
    let turned_hi = -kept.lo;
    Kept {
        lo: kept.lo.max(turned_lo).max(0),
        hi: kept.hi.max(turned_hi),
    }
}

/// The greater low end and the greater high end.
#[inline(always)]
fn greater(a: Kept, b: Kept) -> Kept
    ensures { kept_ends result ≡ greater_ends (kept_ends a) (kept_ends b) }
{
    Kept {
        lo: a.lo.max(b.lo),
        hi: a.hi.max(b.hi),
    }
}

/// A peak with the absolute values of one more interval.
#[inline(always)]
fn raised(before: Kept, kept: Kept) -> Kept
    ensures { kept_ends result ≡ greater_ends (kept_ends before) (absolute_ends (kept_ends kept)) }
{
    greater(before, absolute(kept))
}

/// The same where either may be missing.
#[inline(always)]
fn raised_if_shown(before: Option<Kept>, cell: Option<Kept>) -> Option<Kept>
    ensures { optional_kept result ≡ greater (optional_kept before) (option_map absolute_ends (optional_kept cell)) }
{
    match (before, cell) {
        (_, None) => before,
        (None, Some(kept)) => Some(absolute(kept)),
        (Some(peak_before), Some(kept)) => Some(raised(peak_before, kept)),
    }
}

fn see_nodes(peaks: &mut StepView, view: &StepView)
    requires count { length view.now.nodes ≡ length peaks.old.nodes }
    requires absolutes { All (λ cell. IfSome cell HasAbsolute) view.now.nodes }
    ensures value { (k : ℕ) → k < length peaks.old.nodes →
        node_at peaks.new k ≡ greater (node_at peaks.old k) (option_map absolute_ends (node_at view.now k)) }
    ensures rest { peaks.new ≡ record peaks.old { nodes = peaks.new.nodes } }
    ensures count { length peaks.new.nodes ≡ length peaks.old.nodes }
{
    let (count, _, _) = view.sizes();
    for place in 0..count {
        let node = NodeId(place);
        let seen = raised_if_shown(peaks.kept_node(node), view.kept_node(node));
        peaks.keep_node(node, seen);
    }
}

fn see_elements(peaks: &mut StepView, view: &StepView)
    requires count { length view.now.elements ≡ length peaks.old.elements }
    requires absolutes { All (λ cell. IfSome cell HasAbsolute) view.now.elements }
    ensures value { (place : ℕ) → place < length peaks.old.elements →
        element_at peaks.new place ≡ greater (element_at peaks.old place) (option_map absolute_ends (element_at view.now place)) }
    ensures rest { peaks.new ≡ record peaks.old { elements = peaks.new.elements } }
    ensures count { length peaks.new.elements ≡ length peaks.old.elements }
{
    let (_, count, _) = view.sizes();
    for place in 0..count {
        let element = ElementId(place);
        let seen = raised_if_shown(peaks.kept_element(element), view.kept_element(element));
        peaks.keep_element(element, seen);
    }
}

fn see_transformers(peaks: &mut StepView, view: &StepView)
    requires count { length view.now.effective ≡ length peaks.old.effective }
    requires absolutes { All HasAbsolute view.now.effective }
    ensures value { (t : ℕ) → t < length peaks.old.effective →
        effective_at peaks.new t ≡ greater_ends (effective_at peaks.old t) (absolute_ends (effective_at view.now t)) }
    ensures ordered { (t : ℕ) → t < length peaks.old.effective → (effective_at view.now t).low ≤ℤ (effective_at view.now t).high }
    ensures rest { peaks.new ≡ record peaks.old { effective = peaks.new.effective } }
    ensures count { length peaks.new.effective ≡ length peaks.old.effective }
{
    let (_, _, count) = view.sizes();
    for transformer in 0..count {
        let seen = raised(
            peaks.kept_effective(transformer),
            view.kept_effective(transformer),
        );
        peaks.keep_effective(transformer, seen);
    }
}
