//! The report of the mode.
ghost use Rattle.std.specs.Prelude.{◌≤◌, [], ◌∷◌, None};
ghost use Rattle.gic_stand.specs.Needs.{Nothing};
ghost use Rattle.gic_stand.specs.Serves.{Serves, shown};
ghost use Rattle.gic_stand.specs.Standing.{standing_of};
ghost use Rattle.gic_make.specs.MadeCase.{made_case};
ghost use Rattle.gic_make.specs.RightMake.{IsRightMake};
ghost use Rattle.gic_make.specs.Made.{IsMadeFor};

use crate::laws::made_cases_law;
use crate::making::{LEAST_SIZE, MOST_SIZE};
use crate::solving::summarise;
use crate::text::write_make;
use crate::workspace::Workspace;
use gic_base::Sink;
use gic_stand::{ReportFault, ended};
use gic_winding::laws::limits_law;

/// Writes what the made case of a seed, of `size` sites from `LEAST_SIZE` to `MOST_SIZE`, shows in short in the field of the
/// benchmark event to the north: the numbers of its nodes and elements, the greatest entry of its least capped vector, and
/// how many of its transformers have each verdict. The network of a made case can be solved, so no answer is a refusal.
/// Takes no memory.
pub fn make<S: Sink>(
    seed: u32,
    size: u16,
    workspace: &mut Workspace,
    out: &mut S,
) -> Result<(), ReportFault>
    requires least { LEAST_SIZE ≤ size }
    requires most { size ≤ MOST_SIZE }
    requires workspace { IsMadeFor seed size workspace.old }
    ensures { Serves Nothing (made_case seed size) (standing_of (made_case seed size) None ∷ []) (IsRightMake seed size)
        (shown S.written S.faults out.old) (shown S.written S.faults out.new) result }
{
    limits_law();
    made_cases_law();
    let summary = summarise(
        &workspace.case,
        &workspace.net,
        &workspace.volts,
        &mut workspace.summary,
    );
    let writing = write_make(seed, size, &summary, &mut workspace.line, out);
    ended(writing)
}
