//! A row for each transformer.
ghost use Rattle.std.specs.Prelude.{ℕ, ◌≡◌, ◌<◌, List, length, ℤ};
ghost use Rattle.gic_model.specs.Voltages.{number_at};
ghost use Rattle.gic_model.specs.declared.parts.Switching.{Switching};
ghost use Rattle.gic_grounds.specs.Tolerated.{Tolerated, tolerated, AreNetsOf};
ghost use Rattle.gic_grounds.specs.Varied.{IsReadyToVary, AreReferred, HasReferences, AreFieldVolts, KeepsReferences};
ghost use Rattle.gic_grounds.specs.VariedCurrent.{AreVariedCurrents, AreCutCurrents};
ghost use Rattle.gic_worst.specs.Rows.{screen_row_of};
ghost use Rattle.gic_robust.specs.RightRobust.{IsRobustRow, AreRobust};

use gic_case::Case;
use gic_criteria::{Verdict, worst};
use gic_grounds::{VariedCurrents, VariedWorkspace};
use gic_report::verdict_in;
use gic_worst::{FieldVolts, ScreenRow, ScreenRows};

/// The row of a transformer with these currents.
fn robust_row(currents: VariedCurrents) -> ScreenRow
    requires { AreCutCurrents currents }
    ensures { (v : Tolerated) (north east : ℕ → ℤ) (t : ℕ) → AreVariedCurrents v north east t currents →
        IsRobustRow v north east t (screen_row_of result) }
{
    ScreenRow {
        north: currents.north,
        east: currents.east,
        worst: worst(currents.north, currents.east),
    }
}

/// The row of a transformer: its currents by the references with all grounds at their least, and narrowed by references at
/// corners of the ranges where the verdict on the first is undecided. Takes no memory.
fn row_of(
    case: &Case,
    volts: &FieldVolts,
    threshold: u32,
    varied: &mut VariedWorkspace,
    transformer: u16,
) -> ScreenRow
    requires ready { IsReadyToVary case.now varied.old }
    requires references { HasReferences varied.old }
    requires fields { AreFieldVolts case.now volts.now.north volts.now.east }
    requires place { transformer < length case.now.transformers }
    ensures right { (switched : List Switching) (percent : ℕ) →
        AreNetsOf (tolerated case.now switched percent) varied.old.nets →
        AreReferred case.now (number_at volts.now.north) (number_at volts.now.east) varied.old →
        IsRobustRow (tolerated case.now switched percent) (number_at volts.now.north) (number_at volts.now.east) transformer (screen_row_of result) }
    ensures ready { IsReadyToVary case.now varied.new }
    ensures rest { KeepsReferences varied.old varied.new }
{
    let currents = varied.row(case, transformer);
    let row = robust_row(currents);
    match verdict_in(
        &case.transformers()[transformer as usize],
        row.worst,
        threshold,
    ) {
        Verdict::Undecided => robust_row(varied.sharpen(
            case,
            &volts.north,
            &volts.east,
            transformer,
            currents,
        )),
        Verdict::Outside | Verdict::Below | Verdict::Reaches => row,
    }
}

/// Sets the row of each transformer of a case, from the references in the workspace. Takes no memory.
pub(crate) fn fill_rows(
    case: &Case,
    volts: &FieldVolts,
    threshold: u32,
    varied: &mut VariedWorkspace,
    rows: &mut ScreenRows,
)
    requires ready { IsReadyToVary case.now varied.old }
    requires references { HasReferences varied.old }
    requires fields { AreFieldVolts case.now volts.now.north volts.now.east }
    requires count { length rows.old ≡ length case.now.transformers }
    ensures right { (switched : List Switching) (percent : ℕ) →
        AreNetsOf (tolerated case.now switched percent) varied.old.nets →
        AreReferred case.now (number_at volts.now.north) (number_at volts.now.east) varied.old →
        AreRobust (tolerated case.now switched percent) (number_at volts.now.north) (number_at volts.now.east) rows.new }
{
    for transformer in 0..case.transformers().len() as u16 {
        let row = row_of(case, volts, threshold, varied, transformer);
        rows.set(transformer, row);
    }
}
