//! What the mode takes memory for.
ghost use Rattle.std.specs.Prelude.{◌≤◌, IfOk};
ghost use Rattle.gic_make.specs.Made.{IsMadeFor};

use crate::making::{LEAST_SIZE, MOST_SIZE, make_case};
use crate::solving::{SummaryWorkspace, make_summary_workspace};
use gic_base::OutOfMemory;
use gic_case::Case;
use gic_criteria::Event;
use gic_model::Volts;
use gic_net::Net;
use gic_stand::standing_net;
use gic_text::LineBuilder;
use gic_uniform::uniform_volts;
use gic_winding::elements;
use std::alloc::Global;

/// All that the mode takes memory for: the made case, too. It is made before the network is solved.
pub struct Workspace {
    pub(crate) line: LineBuilder,
    pub(crate) case: Case,
    pub(crate) net: Net,
    /// The voltages of the field of the benchmark event to the north.
    pub(crate) volts: Volts,
    pub(crate) summary: SummaryWorkspace,
}

impl Drop for Workspace {
    /// Lets go of everything, in one step for whoever drops it.
    fn drop(self) {
        let Workspace {
            line: _line,
            case: _case,
            net: _net,
            volts: _volts,
            summary: _summary,
        } = self;
    }
}

/// Makes the case of a seed, of `size` sites from `LEAST_SIZE` to `MOST_SIZE`, and the workspace for its network.
pub fn make_workspace(alloc: Global, seed: u32, size: u16) -> Result<Workspace, OutOfMemory>
    requires least { LEAST_SIZE ≤ size }
    requires most { size ≤ MOST_SIZE }
    ensures { IfOk result (IsMadeFor seed size) }
{
    let line = LineBuilder::new(alloc)?;
    let case = make_case(alloc, seed, size)?;
    let elements = elements(alloc, &case)?;
    let net = standing_net(alloc, &elements, &None)?;
    let volts = uniform_volts(alloc, &case, &elements, Event::Benchmark.field(), 0)?;
    let summary = make_summary_workspace(alloc, &case, &net)?;
    Ok(Workspace {
        line,
        case,
        net,
        volts,
        summary,
    })
}
