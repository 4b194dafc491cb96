//! Theorems over the definitions, each the contract of a function that does nothing: a function whose proof rests on a
//! theorem calls it.
ghost use Rattle.std.specs.Prelude.{◌≡◌, ◌*◌, ◌^◌, IsFalse};
ghost use Rattle.gic_model.specs.Limits.{IsWithinLimits};
ghost use Rattle.gic_model.specs.declared.parts.Item.TheVariants.{Neutral};
ghost use Rattle.gic_model.specs.Standing.{is_live, stands_after, rows_in_force};
ghost use Rattle.gic_model.specs.Solution.{IsSolution};
ghost use Rattle.gic_model.specs.Earthing.{IsEarthed};
ghost use Rattle.gic_model.specs.Bound.{IsBoundVector};
ghost use Rattle.gic_model.specs.Guess.{IsSettledWithin, diagonal};
ghost use Rattle.gic_model.specs.Sharp.{IsSharp};
ghost use Rattle.gic_model.specs.ItemLaws.{ItemsAreOneWhereEqual, LastRowDecides};
ghost use Rattle.gic_model.specs.SolutionLaws.{SolutionsCombine, PotentialsAreBounded, PotentialsAgree};
ghost use Rattle.gic_model.specs.CertificateLaws.{GuessesHoldPotentials, UnitsTellSettled, RoundedResidualsHold};
ghost use Rattle.gic_model.specs.CertificateLaws.{RoundedResidualsAreNarrow, DiagonalIsEnough, DiagonalIsAtMostTwice};
ghost use Rattle.gic_model.specs.BoundLaws.{CappedIsBound, CappedIsEarthed, SharpIsSharpWider};
ghost use Rattle.gic_model.specs.WorkedLoop.{loop, loop_standing, loop_volts, loop_solution, loop_vector, loop_guesses};
ghost use Rattle.gic_model.specs.WorkedNeutral.{grid, grid_rows, grid_standing, grid_volts, grid_solution, grid_vector};

/// Two items are one, by their numbers, exactly where they are equal.
pub fn item_law()
    ensures { ItemsAreOneWhereEqual }
{}

/// One more row at the end of a switching list decides its own item and no other.
pub fn last_row_law()
    ensures { LastRowDecides }
{}

/// Solutions of one network can be added and multiplied by whole numbers (superposition).
pub fn superposition_law()
    ensures { SolutionsCombine }
{}

/// In a network that is earthed within `MOST_WALK`, no live node's potential is above `MOST_WALK` times the greatest
/// voltage.
pub fn potential_law()
    ensures { PotentialsAreBounded }
{}

/// Where every live node is earthed, any two solutions have the same potentials at the live nodes.
pub fn agreement_law()
    ensures { PotentialsAgree }
{}

/// How far guesses can be from any solution: a live node's potential lies within v grains of its guess for each grain
/// that the guesses are settled within, whatever the bound vector v.
pub fn certificate_law()
    ensures { GuessesHoldPotentials }
{}

/// A node is settled where an interval of whole units that holds its residual lies within what its conductance,
/// rounded down, carries.
pub fn settled_law()
    ensures { UnitsTellSettled }
{}

/// The residual lies between the sums of its parts rounded down and rounded up, which are at most as many units apart
/// as the node has standing elements.
pub fn rounded_residual_law()
    ensures holds { RoundedResidualsHold }
    ensures narrow { RoundedResidualsAreNarrow }
{}

/// The diagonal is at least the conductance, and at most twice as much.
pub fn diagonal_law()
    ensures at_least { DiagonalIsEnough }
    ensures at_most { DiagonalIsAtMostTwice }
{}

/// A capped vector without an entry `FULL_WALK` is a bound vector, and the network is earthed within `MOST_WALK`.
pub fn capped_law()
    ensures bound { CappedIsBound }
    ensures earthed { CappedIsEarthed }
{}

/// Potentials that are sharp for a width are sharp for a greater one.
pub fn sharp_law()
    ensures { SharpIsSharpWider }
{}

/// A loop worked by hand meets the definitions: its limits, its solution, a bound vector and a chain to earth; its
/// potentials as guesses are settled within 0 grains and sharp for the width 0, and the conductance of 11 siemens at
/// the bus a is its diagonal.
pub fn worked_loop_law()
    ensures limits { IsWithinLimits loop }
    ensures solution { IsSolution loop_standing loop_volts loop_solution }
    ensures vector { IsBoundVector loop_standing loop_vector }
    ensures earthed { IsEarthed loop_standing 2 }
    ensures settled { IsSettledWithin loop_standing loop_volts loop_guesses 0 }
    ensures sharp { IsSharp loop_standing loop_volts loop_guesses loop_guesses 0 }
    ensures diagonal { diagonal loop_standing 2 ≡ 11 * 2 ^ 20 }
{}

/// So does a network with a neutral resistor, an open line and a dead node. At the time 4 its first row alone is in
/// force, and the resistor is out.
pub fn worked_neutral_law()
    ensures limits { IsWithinLimits grid }
    ensures solution { IsSolution grid_standing grid_volts grid_solution }
    ensures vector { IsBoundVector grid_standing grid_vector }
    ensures earthed { IsEarthed grid_standing 2 }
    ensures dead { IsFalse (is_live grid_standing 4) }
    ensures in_force { IsFalse (stands_after (rows_in_force 4 grid_rows) (Neutral 0)) }
{}
