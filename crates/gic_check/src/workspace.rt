//! What the mode takes memory for.
ghost use Rattle.std.specs.Prelude.{IfOk};
ghost use Rattle.gic_check.specs.Made.{IsMadeFor};

use crate::live::blank_live;
use gic_base::OutOfMemory;
use gic_inputs::Inputs;
use gic_net::{Net, Scratch};
use gic_stand::standing_net;
use gic_text::LineBuilder;
use gic_winding::elements;
use std::alloc::Global;

/// All that the mode takes memory for. It is made before the network is looked at.
pub struct Workspace {
    pub(crate) line: LineBuilder,
    pub(crate) net: Net,
    pub(crate) scratch: Scratch,
    /// Whether each node is live.
    pub(crate) live: Vec<bool>,
}

impl Drop for Workspace {
    /// Lets go of everything, in one step for whoever drops it.
    fn drop(self) {
        let Workspace {
            line: _line,
            net: _net,
            scratch: _scratch,
            live: _live,
        } = self;
    }
}

/// The workspace for the network of the case, with all rows of the switchings in force.
pub fn make_workspace(alloc: Global, inputs: &Inputs<()>) -> Result<Workspace, OutOfMemory>
    ensures { IfOk result (IsMadeFor inputs.now) }
{
    let line = LineBuilder::new(alloc)?;
    let elements = elements(alloc, &inputs.case)?;
    let net = standing_net(alloc, &elements, &inputs.switchings)?;
    let scratch = Scratch::new(alloc, net.nodes())?;
    let live = blank_live(alloc, net.nodes())?;
    Ok(Workspace {
        line,
        net,
        scratch,
        live,
    })
}
