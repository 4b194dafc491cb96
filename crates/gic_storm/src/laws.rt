//! What the definitions say, each the contract of a function that does nothing.
ghost use Rattle.std.specs.Prelude.{◌≡◌, List, map, All, [], ◌∷◌};
ghost use Rattle.std.specs.List.{flat_map};
ghost use Rattle.std.specs.List.Sorted.{IsNonDecreasingBy, IsStrictlyIncreasing};
ghost use Rattle.gic_storm.specs.declared.row.StormRow.{StormRow};
ghost use Rattle.gic_storm.specs.Steps.{steps_in, first_time, IsStep};

/// The steps hold each row once, in order; each has a row, and all its rows have one time; and where the times of the rows
/// do not fall, those of the steps rise. Where the times of the rows rise, as under `time,north,east`, each row is a step.
pub fn steps_law()
    ensures each_row_once { (rows : List StormRow) → flat_map (λ step. step) (steps_in rows) ≡ rows }
    ensures one_time { (rows : List StormRow) → All IsStep (steps_in rows) }
    ensures times_rise { (rows : List StormRow) → IsNonDecreasingBy (λ r. r.time) rows →
        IsStrictlyIncreasing (map first_time (steps_in rows)) }
    ensures rows_alone { (rows : List StormRow) → IsStrictlyIncreasing (map (λ r. r.time) rows) → steps_in rows ≡ map (λ r. r ∷ []) rows }
{}
