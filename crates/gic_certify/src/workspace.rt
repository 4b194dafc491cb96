//! What the mode takes memory for.
ghost use Rattle.std.specs.Prelude.{IfOk};
ghost use Rattle.gic_criteria.specs.Ranges.{IsWithinField};
ghost use Rattle.gic_certify.specs.Made.{IsMadeFor};

use gic_base::OutOfMemory;
use gic_cert::{CertWorkspace, make_cert_workspace};
use gic_criteria::UniformField;
use gic_inputs::Inputs;
use gic_model::Volts;
use gic_net::Net;
use gic_stand::standing_net;
use gic_text::LineBuilder;
use gic_uniform::{SolveWorkspace, solve_workspace_for, uniform_volts};
use gic_winding::elements;
use std::alloc::Global;

/// All that the mode takes memory for. It is made before the network is looked at.
#[derive(Drop)]
pub struct Workspace {
    pub(crate) line: LineBuilder,
    pub(crate) net: Net,
    /// The voltages of the field that is asked for.
    pub(crate) volts: Volts,
    pub(crate) solving: SolveWorkspace,
    /// What the certificate is made in.
    pub(crate) certificate: CertWorkspace,
}

/// The workspace for the network of the case, with all rows of the switchings in force.
pub fn make_workspace(
    alloc: Global,
    inputs: &Inputs<UniformField>,
) -> Result<Workspace, OutOfMemory>
    requires { IsWithinField inputs.now.question }
    ensures { IfOk result (IsMadeFor inputs.now) }
{
    let line = LineBuilder::new(alloc)?;
    let case = &inputs.case;
    let field = &inputs.question;
    let elements = elements(alloc, case)?;
    let net = standing_net(alloc, &elements, &inputs.switchings)?;
    let volts = uniform_volts(alloc, case, &elements, field.north, field.east)?;
    let solving = solve_workspace_for(alloc, case, &net)?;
    let certificate = make_cert_workspace(alloc, net.nodes())?;
    Ok(Workspace {
        line,
        net,
        volts,
        solving,
        certificate,
    })
}
