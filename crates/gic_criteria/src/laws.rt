//! Theorems over the definitions, each the contract of a function that does nothing: a function whose proof rests on a
//! theorem calls it.
ghost use Rattle.std.specs.Prelude.{◌≡◌, ◌+◌, ◌*◌, ◌≤◌, ℤ, ◌+ℤ◌, ◌*ℤ◌};
ghost use Rattle.gic_criteria.specs.Worst.{square_of, WorstIsDetermined, WorstOfZeroIsZero, WorstAboutZero};
ghost use Rattle.gic_criteria.specs.VerdictLaws.{BelowIsUnder, ReachesIsAtLeast, UndecidedIsAcross, WorstBelowIsUnder};
ghost use Rattle.gic_criteria.specs.VerdictLaws.{WorstReachesIsAtLeast};

/// In a uniform field with the parts c and s a current that is a for the one unit field and b for the other is
/// a·c + b·s. Over all fields of one strength none gives more than the root of a² + b², times the strength; the field
/// along a and b gives as much.
pub fn greatest_over_all_orientations_law()
    ensures most { (a b c s : ℤ) →
        square_of (a *ℤ c +ℤ b *ℤ s) ≤ (square_of a + square_of b) * (square_of c + square_of s) }
    ensures reached { (a b : ℤ) →
        square_of (a *ℤ a +ℤ b *ℤ b) ≡ (square_of a + square_of b) * (square_of a + square_of b) }
{}

/// Verdicts are true of every absolute current that the interval encloses, and undecided only across the threshold.
pub fn verdict_law()
    ensures below { BelowIsUnder }
    ensures reaches { ReachesIsAtLeast }
    ensures undecided { UndecidedIsAcross }
{}

/// Verdicts on a worst interval are true of the worst current that it encloses, squared.
pub fn worst_verdict_law()
    ensures below { WorstBelowIsUnder }
    ensures reaches { WorstReachesIsAtLeast }
{}

/// The worst interval is determined by the two signed intervals that it is made of: of `0 0` twice it is `0 0`, and of
/// `-1 1` twice `0 2`.
pub fn worst_interval_law()
    ensures determined { WorstIsDetermined }
    ensures zeroed { WorstOfZeroIsZero }
    ensures about_zero { WorstAboutZero }
{}
