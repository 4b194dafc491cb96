//! Theorems over the definitions, each the contract of a function that does nothing.
ghost use Rattle.gic_effective.specs.LineItems.{LineItemsAreWithin};
ghost use Rattle.gic_effective.specs.WithoutEffect.{UnitsWithoutEffectShowZero};

/// Each line item among the elements of a case is a place in the case's lines, as `fill_volts` asks of elements.
pub fn line_items_law()
    ensures { LineItemsAreWithin }
{}

/// A reactor has `0 0` in every right view, whatever stands: none of its windings has a weight. So has a delta-delta
/// unit.
pub fn no_effect_law()
    ensures { UnitsWithoutEffectShowZero }
{}
