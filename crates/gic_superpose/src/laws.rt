//! Theorems over the definitions, each the contract of a function that does nothing: a function whose proof rests on a
//! theorem calls it.
ghost use Rattle.gic_superpose.specs.Quantities.{ViewsAreLinear, SuperposedIntervalsHold, SuperposedIntervalsAreNarrow};
ghost use Rattle.gic_superpose.specs.Worked.{WorkedStep};

/// What a view shows of a solution is linear: the potential of a live node, an element's current, and a sum of
/// currents, each with its weight.
pub fn linear_views_law()
    ensures { ViewsAreLinear }
{}

/// Where each live node is earthed, intervals that hold a linear quantity in all base fields give one that holds it in
/// any fields, without a solve.
pub fn superposed_intervals_law()
    ensures { SuperposedIntervalsHold }
{}

/// From intervals at most 1000 nanovolts or nanoamperes wide, a superposed interval is at most 2 millivolts or
/// milliamperes wide.
pub fn superposed_width_law()
    ensures { SuperposedIntervalsAreNarrow }
{}

/// One zone's intervals in half a field to the south and a whole one to the east, worked by hand.
pub fn worked_step_law()
    ensures { WorkedStep }
{}
