//! Theorems over the definitions, each the contract of a function that does nothing: a function whose proof rests on a
//! theorem calls it.
ghost use Rattle.gic_model.specs.SolutionLaws.{PotentialsAreBounded};
ghost use Rattle.gic_enclose.specs.Laws.{SolutionsAreBelow, SettledGuessesAreBelow, DrivenSolutionsAreBelow, CaseVoltsDriveWithin, SolvedVoltsDriveWithin};
ghost use Rattle.gic_enclose.specs.Near.{FirstSweepIsNear, SweepBringsNearer, NearIsSettled, SweepsSettle};

/// In a network that is earthed within 4096, every solution's potential at a live node is at most 4096 times the
/// greatest voltage, which is below 2^94 grains, and settled guesses are below them too.
pub fn potential_bound_law()
    ensures solutions { PotentialsAreBounded }
    ensures grains { SolutionsAreBelow }
    ensures guesses { SettledGuessesAreBelow }
{}

/// The voltages of a case drive no potential far, nor do those for which some solution has no potential beyond 2^58
/// nanovolts. Where voltages drive none far, every solution's potential at a live node is below 2^95 grains.
pub fn drive_law()
    ensures of_case { CaseVoltsDriveWithin }
    ensures solved { SolvedVoltsDriveWithin }
    ensures below { DrivenSolutionsAreBelow }
{}

/// Successive guesses come nearer to each other with each sweep, and near ones are settled.
pub fn sweeps_converge_law()
    ensures first { FirstSweepIsNear }
    ensures next { SweepBringsNearer }
    ensures last { NearIsSettled }
{}

/// In a network that is earthed within `MOST_WALK`, 802817 sweeps leave settled guesses, whatever guesses within their
/// limit they begin with.
pub fn sweeps_settle_law()
    ensures { SweepsSettle }
{}
