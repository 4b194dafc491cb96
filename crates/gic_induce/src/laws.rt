//! Theorems over the definitions, each the contract of a function that does nothing: a function whose proof rests on a
//! theorem calls it.
ghost use Rattle.gic_induce.specs.Linear.{ItemVoltsAreLinear, VoltsAreLinear};

/// Voltages are linear in the fields: where in each zone both parts of one field are combined of those of two others,
/// the voltages in it are combined so of the voltages in them.
pub fn linearity_law()
    ensures items { ItemVoltsAreLinear }
    ensures elements { VoltsAreLinear }
{}
