//! What the text of the mode tells, and the theorems over made cases, each the contract of a function that does nothing
//! but bring the theorems that it rests on.
ghost use Rattle.std.specs.Prelude.{◌≡◌, [], ◌∷◌};
ghost use Rattle.gic_make.specs.Determines.{TextDeterminesMake};
ghost use Rattle.gic_make.specs.Generator.{states_after};
ghost use Rattle.gic_make.specs.Accepted.{MadeCasesAreSound, MadeCasesHaveTheirRows, MadeCasesHaveTheirSize, MadeNodesAreEarthed};
ghost use Rattle.gic_make.specs.Accepted.{MadeCasesAreNearEarth};
ghost use Rattle.gic_make.specs.Worked.{small_case, grounds_of, first_resistance_of, ways_of};

use gic_bound::laws::second_share_law;
use gic_winding::laws::limits_law;

/// Texts that are equal show the same seed, the same size and the same summary.
pub fn text_determines_make_law()
    ensures { TextDeterminesMake }
{}

/// For every seed and every number of sites from `LEAST_SIZE` to `MOST_SIZE`: the made case keeps the rules of the reader
/// of cases, has a row a site in each list but one line less, so that it is within the limits of every format, and two
/// nodes a site and three elements a site but one. Each of its nodes is live and earthed while all elements stand, and it
/// is earthed within 448.
pub fn made_cases_law()
    ensures sound { MadeCasesAreSound }
    ensures rows { MadeCasesHaveTheirRows }
    ensures size { MadeCasesHaveTheirSize }
    ensures earthed { MadeNodesAreEarthed }
    ensures near { MadeCasesAreNearEarth }
{
    limits_law();
    second_share_law();
}

/// The case of two sites from the seed 7 by the definitions: its first two states, its grounds, the resistance of its first
/// transformer, and its one line.
pub fn worked_case_law()
    ensures states { states_after 7 2 ≡ 1025555898 ∷ 3923423697 ∷ [] }
    ensures grounds { grounds_of small_case ≡ 448000 ∷ 640000 ∷ [] }
    ensures resistance { first_resistance_of small_case ≡ 366000 }
    ensures line { ways_of small_case ≡ (0, 1) ∷ [] }
{}
