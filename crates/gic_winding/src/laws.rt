//! Theorems over the definitions, each the contract of a function that does nothing.
ghost use Rattle.gic_winding.specs.Degrees.{DegreesCountElements, ElementsAreWithinLimits};
ghost use Rattle.gic_winding.specs.Terminals.{WindingsWeighAsTerminals};

/// The weighted currents of an autotransformer's windings are those of its terminals: the high terminal carries the
/// current of the series winding, and the low one what the common winding carries beyond it. Of a third winding,
/// which has a terminal of its own, it says nothing.
pub fn autotransformer_terminal_law()
    ensures { WindingsWeighAsTerminals }
{}

/// In every sound case the number of elements that end at a node is the degree that the rule of degrees counts there.
pub fn degree_law()
    ensures { DegreesCountElements }
{}

/// The elements of every sound case are within the limits of a network.
pub fn limits_law()
    ensures { ElementsAreWithinLimits }
{}
