//! Theorems over the definitions, each the contract of a function that does nothing.
ghost use Rattle.gic_case_reader.specs.Accepted.{AcceptedCasesAreSound};

/// A case that breaks no rule keeps all that is said of sound lists: limits and ranges, places within the lists, unique
/// names, two buses for each line, sides with buses of their own in one substation, voltages in their order, and degrees.
pub fn accepted_law()
    ensures { AcceptedCasesAreSound }
{}
