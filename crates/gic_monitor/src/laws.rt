//! Theorems over the definitions, each the contract of a function that does nothing: a function whose proof rests on a
//! theorem calls it.
ghost use Rattle.std.specs.Prelude.{ℕ, List, codes};
ghost use Rattle.gic_monitor.specs.Bounds.{CertainAreFewest, PossibleAreMost, RangeHoldsEach};
ghost use Rattle.gic_monitor.specs.RosterView.{RosterView};
ghost use Rattle.gic_monitor.specs.declared.loss.table_loss.NamedFactor.{NamedFactor};
ghost use Rattle.gic_monitor.specs.LossText.{volt_factors, volt_text, table_factors, table_text};
ghost use Rattle.gic_monitor.specs.LossBounds.{LossesAreBounded};

/// Monitors bound the exact currents: where the views enclose the current of a unit, the steps at which it reaches the
/// threshold are between its two counts, and each current of an earthing is within its range.
pub fn monitors_bound_the_exact_currents_law()
    ensures certain { CertainAreFewest }
    ensures possible { PossibleAreMost }
    ensures range { RangeHoldsEach }
{}

/// Losses are bounded: over one view or more that enclose the effective currents of the units, with no end beyond 2^70
/// mA per phase either way, the exact total of factor times absolute current is at most the high end that the monitor
/// prints at every view, and at least the low end at one of them. The number that it prints is that of a view: before it
/// the exact total is under the high end, and there it is less by at most the sum of factor times width.
pub fn losses_are_bounded_law()
    ensures by_volts { (scale : ℕ) (roster : RosterView) →
        LossesAreBounded (codes "loss") (volt_factors scale roster) (volt_text scale roster) }
    ensures by_table { (table : List NamedFactor) (roster : RosterView) →
        LossesAreBounded (codes "table") (table_factors table roster) (table_text table roster) }
{}
