//! Losses by rated voltages.
ghost use Rattle.std.specs.Prelude.{◌≡◌, ◌≤◌, ℕ, List, [], map, codes, IfOk};
ghost use Rattle.gic_view.specs.View.{View};
ghost use Rattle.gic_monitor.specs.RosterView.{RosterView};
ghost use Rattle.gic_monitor.specs.declared.loss.limits.TheConstants.{MOST_SCALE};
ghost use Rattle.gic_monitor.specs.LossText.{loss_text, volt_factor, volt_text};
ghost use Rattle.gic_monitor.specs.LossOutlook.{text_behind};

use crate::loss::limits::MOST_SCALE;
use crate::loss::totals::Totals;
use crate::monitor::Monitor;
use crate::roster::{Rated, Roster};
use gic_base::OutOfMemory;
use gic_view::StepView;
use std::alloc::Global;

/// The factor of a unit in var per ampere: the scale for each whole kilovolt of its high side.
fn volt_factor(scale: u16, unit: &Rated) -> u32
    requires { scale ≤ MOST_SCALE }
    ensures { result ≡ volt_factor scale unit.now }
{
    unit.high_volts / 1000 * u32::from(scale)
}

/// The factors of units, in their order.
fn volt_factors(alloc: Global, scale: u16, units: &[Rated]) -> Result<Vec<u32>, OutOfMemory>
    requires { scale ≤ MOST_SCALE }
    ensures { IfOk result (λ factors. factors.items ≡ map (volt_factor scale) units.now) }
{
    Ok(
        units
            .iter()
            .map(|unit| volt_factor(scale, unit))
            .collect(alloc)?,
    )
}

/// Prints `loss LO HI step K`: of the totals of all views the greatest low end and the greatest high end, in milli-var,
/// and the number of the first view with that high end; or `loss none` without a view. The total of a view is the sum
/// over the units of the roster of factor times absolute effective current. The factor of a unit is the scale for each
/// whole kilovolt of its high side, in var per ampere.
#[derive(Drop)]
pub struct VoltLoss {
    alloc: Global,
    scale: u16,
    totals: Totals,
    ghost small: { scale ≤ MOST_SCALE },
}

impl VoltLoss {
    /// A monitor with this scale in var per ampere and kilovolt, which has not begun: it sees no unit. Takes no memory;
    /// the handle is kept for later growth.
    pub fn new(alloc: Global, scale: u16) -> VoltLoss
        requires { scale ≤ MOST_SCALE }
        ensures plan { (roster : RosterView) (views : List View) → ⟦<VoltLoss as Monitor>⟧.plan result roster views ≡ volt_text scale roster views }
        ensures unbegun { (views : List View) → ⟦<VoltLoss as Monitor>⟧.outlook result views ≡ loss_text (codes "loss") [] views }
    {
        VoltLoss {
            alloc,
            scale,
            totals: Totals::new(Vec::new(alloc)),
        }
    }
}

impl Monitor for VoltLoss {
    ghost plan = { λ m roster views. volt_text m.scale roster views };

    ghost outlook = { λ m views. text_behind (codes "loss") m.totals views };

    fn begin(&mut self, roster: &Roster) -> Result<(), OutOfMemory> {
        self.totals = Totals::new(volt_factors(self.alloc, self.scale, roster.units())?);
        Ok(())
    }

    fn see(&mut self, view: &StepView) {
        self.totals.see(view);
    }

    fn print(&self, into: &mut Vec<u8>) -> Result<(), OutOfMemory> {
        self.totals.print(self.alloc, b"loss", into)
    }
}
