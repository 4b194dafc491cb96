//! Losses by a table of factors.
ghost use Rattle.std.specs.Prelude.{◌≡◌, ℕ, List, [], map, codes, IfOk};
ghost use Rattle.gic_view.specs.View.{View};
ghost use Rattle.gic_monitor.specs.RosterView.{RosterView};
ghost use Rattle.gic_monitor.specs.LossText.{loss_text, table_factor, table_text};
ghost use Rattle.gic_monitor.specs.LossOutlook.{text_behind};

use crate::loss::totals::Totals;
use crate::monitor::Monitor;
use crate::roster::{Rated, Roster};
use gic_base::{Name, OutOfMemory};
use gic_view::StepView;
use std::alloc::Global;

/// The name of a transformer, and its factor in var per ampere.
#[derive(Clone, Copy, Debug)]
pub struct NamedFactor {
    pub name: Name,
    pub factor: u32,
}

/// The factor of a unit in var per ampere: that of the first entry with its name, 0 where there is none.
fn table_factor(table: &[NamedFactor], unit: &Rated) -> u32
    ensures { result ≡ table_factor table.now unit.now }
{
    table
        .iter()
        .find(|entry| entry.name == unit.name)
        .map_or(0, |entry| entry.factor)
}

/// The factors of units, in their order.
fn table_factors(
    alloc: Global,
    table: &[NamedFactor],
    units: &[Rated],
) -> Result<Vec<u32>, OutOfMemory>
    ensures { IfOk result (λ factors. factors.items ≡ map (table_factor table.now) units.now) }
{
    Ok(
        units
            .iter()
            .map(|unit| table_factor(table, unit))
            .collect(alloc)?,
    )
}

/// Prints `table LO HI step K`, or `table none` without a view, as [`VoltLoss`](crate::VoltLoss) prints its line. The
/// factor of a unit is that of the first entry of a table with the unit's name, and 0 where there is none.
#[derive(Drop)]
pub struct TableLoss {
    alloc: Global,
    table: Vec<NamedFactor>,
    totals: Totals,
}

impl TableLoss {
    /// A monitor with this table, which has not begun: it sees no unit. Takes no memory; the handle is kept for later
    /// growth.
    pub fn new(alloc: Global, table: Vec<NamedFactor>) -> TableLoss
        ensures plan { (roster : RosterView) (views : List View) → ⟦<TableLoss as Monitor>⟧.plan result roster views ≡ table_text table.items roster views }
        ensures unbegun { (views : List View) → ⟦<TableLoss as Monitor>⟧.outlook result views ≡ loss_text (codes "table") [] views }
    {
        TableLoss {
            alloc,
            table,
            totals: Totals::new(Vec::new(alloc)),
        }
    }
}

impl Monitor for TableLoss {
    ghost plan = { λ m roster views. table_text m.table.items roster views };

    ghost outlook = { λ m views. text_behind (codes "table") m.totals views };

    fn begin(&mut self, roster: &Roster) -> Result<(), OutOfMemory> {
        self.totals = Totals::new(table_factors(self.alloc, &self.table, roster.units())?);
        Ok(())
    }

    fn see(&mut self, view: &StepView) {
        self.totals.see(view);
    }

    fn print(&self, into: &mut Vec<u8>) -> Result<(), OutOfMemory> {
        self.totals.print(self.alloc, b"table", into)
    }
}
