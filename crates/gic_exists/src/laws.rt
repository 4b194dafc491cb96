//! The theorems behind existence, each the contract of a function that does nothing.
ghost use Rattle.std.specs.Prelude.{[], ◌∷◌, ℤ};
ghost use Rattle.gic_model.specs.declared.parts.Item.TheVariants.{Ground};
ghost use Rattle.gic_model.specs.Limits.{IsWithinLimits};
ghost use Rattle.gic_model.specs.Solution.{IsSolution};
ghost use Rattle.gic_model.specs.Earthing.{AreEarthed};
ghost use Rattle.gic_model.specs.WorkedLoop.{loop, loop_volts, loop_solution};
ghost use Rattle.gic_exists.specs.Linear.{FewEquationsAreSolvedOrVanish, SquareEquationsAreSolvedOrVanish};
ghost use Rattle.gic_exists.specs.Exists.{standing_without, IsTheSolution, EarthedNetworksAreSolved, SolutionsAgree};
ghost use Rattle.gic_exists.specs.Worked.{one_ground_solution, no_volts, level_solution, neutral_loop, neutral_solution};

/// Linear equations, no more than unknowns, have a solution in whole numbers over a denominator, or all their forms
/// are 0 at numbers that aren't all 0.
pub fn elimination_law()
    ensures { FewEquationsAreSolvedOrVanish }
{}

/// The same with the coefficients written out: n equations in n unknowns.
pub fn square_law()
    ensures { SquareEquationsAreSolvedOrVanish }
{}

/// Whichever elements stand: where every live node is earthed, a solution exists for any voltages.
pub fn existence_law()
    ensures { EarthedNetworksAreSolved }
{}

/// There any two solutions agree, in potentials and in currents.
pub fn agreement_law()
    ensures { SolutionsAgree }
{}

/// A network worked by hand, a loop of two grounded substations, meets the premise; its solution is the worked one.
pub fn worked_loop_law()
    ensures limits { IsWithinLimits loop }
    ensures earthed { AreEarthed (standing_without loop []) }
    ensures solution { IsTheSolution (standing_without loop []) loop_volts loop_solution }
{}

/// So does the loop with the ground of A open: one ground is enough.
pub fn worked_one_ground_law()
    ensures earthed { AreEarthed (standing_without loop (Ground 0 ∷ [])) }
    ensures solution { IsTheSolution (standing_without loop (Ground 0 ∷ [])) loop_volts one_ground_solution }
{}

/// With both grounds open it fails the premise, and then the conclusion too: where no voltage drives, every potential
/// that is the same at all nodes is a solution.
pub fn worked_no_ground_law()
    ensures premise { AreEarthed (standing_without loop (Ground 0 ∷ Ground 1 ∷ [])) → ⊥ }
    ensures solutions { (z : ℤ) → IsSolution (standing_without loop (Ground 0 ∷ Ground 1 ∷ [])) no_volts (level_solution z) }
{}

/// The loop with a resistor in a transformer's neutral meets it too.
pub fn worked_neutral_law()
    ensures limits { IsWithinLimits neutral_loop }
    ensures earthed { AreEarthed (standing_without neutral_loop []) }
    ensures solution { IsTheSolution (standing_without neutral_loop []) loop_volts neutral_solution }
{}
