//! The table of intervals in the base fields of a case.
ghost use Rattle.std.specs.Prelude.{◌≡◌, IfOk};
ghost use Rattle.gic_winding.specs.ElementList.{elements_of};
ghost use Rattle.gic_base_views.specs.Table.{IsTableOf};

use gic_base::OutOfMemory;
use gic_case::Case;
use gic_model::Elements;
use gic_superpose::PairRows;
use std::alloc::Global;

/// The intervals of all that a view of a case shows, in the two base fields of each zone: a row for each node in
/// nanovolts, for each element in nanoamperes and for each transformer in nanoamperes per phase.
pub struct BaseTable {
    pub(crate) nodes: PairRows,
    pub(crate) elements: PairRows,
    pub(crate) effective: PairRows,
}

impl Drop for BaseTable {
    /// Lets go of everything, in one step for whoever drops it.
    fn drop(self) {
        let BaseTable {
            nodes: _nodes,
            elements: _elements,
            effective: _effective,
        } = self;
    }
}

impl BaseTable {
    /// The table of a case whose elements these are.
    pub fn new(alloc: Global, case: &Case, elements: &Elements) -> Result<BaseTable, OutOfMemory>
        requires { elements.now ≡ elements_of case.now }
        ensures { IfOk result (IsTableOf case.now) }
    {
        elements.within_limits();
        let zones = case.zones().len() as u16;
        let transformers = case.transformers().len() as u16;
        Ok(BaseTable {
            nodes: PairRows::new(alloc, elements.nodes(), zones)?,
            elements: PairRows::new(alloc, elements.list().len() as u16, zones)?,
            effective: PairRows::new(alloc, transformers, zones)?,
        })
    }

    /// Chooses the numbers in which the rows are superposed.
    pub(crate) fn choose_numbers(&mut self)
        ensures { self.new ≡ self.old }
    {
        self.nodes.choose_numbers();
        self.elements.choose_numbers();
        self.effective.choose_numbers();
    }
}
