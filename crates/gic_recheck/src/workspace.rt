//! What the mode takes memory for.
ghost use Rattle.std.specs.Prelude.{IfOk, IfErr};
ghost use Rattle.gic_stand.specs.Standing.{standing_of};
ghost use Rattle.gic_recheck.specs.Made.{IsMadeFor, IsReadFrom};
ghost use Rattle.gic_recheck.specs.Told.{IsFaultOf};

use crate::accepting::{own_volts, read};
use crate::fault::WorkspaceFault;
use crate::potentials::potentials;
use gic_cert::Cert;
use gic_fixed::Interval;
use gic_inputs::Inputs;
use gic_model::Volts;
use gic_net::Net;
use gic_stand::standing_net;
use gic_text::LineBuilder;
use gic_winding::elements;
use std::alloc::Global;

/// All that the mode takes memory for: the certificate that was read, too.
pub struct Workspace {
    pub(crate) line: LineBuilder,
    pub(crate) net: Net,
    pub(crate) cert: Cert,
    /// The voltages of the certificate's own field.
    pub(crate) volts: Volts,
    /// The interval of each live node in millivolts.
    pub(crate) intervals: Vec<Option<Interval>>,
}

impl Drop for Workspace {
    /// Lets go of everything, in one step for whoever drops it.
    fn drop(self) {
        let Workspace {
            line: _line,
            net: _net,
            cert: _cert,
            volts: _volts,
            intervals: _intervals,
        } = self;
    }
}

/// Reads a certificate over the network of the case, with all rows of the switchings in force, and makes a workspace
/// for its check.
pub fn make_workspace(
    alloc: Global,
    inputs: &Inputs<()>,
    bytes: &[u8],
) -> Result<Workspace, WorkspaceFault>
    ensures made { IfOk result (IsMadeFor inputs.now) }
    ensures read { IfOk result (IsReadFrom inputs.now bytes.now) }
    ensures refused { IfErr result (IsFaultOf inputs.now.case (standing_of inputs.now.case inputs.now.switchings) bytes.now) }
{
    let line = LineBuilder::new(alloc)?;
    let case = &inputs.case;
    let elements = elements(alloc, case)?;
    let net = standing_net(alloc, &elements, &inputs.switchings)?;
    let cert = read(alloc, case, &net, bytes)?;
    let volts = own_volts(alloc, case, &elements, &cert)?;
    let intervals = potentials(alloc, net.nodes(), &cert)?;
    Ok(Workspace {
        line,
        net,
        cert,
        volts,
        intervals,
    })
}
