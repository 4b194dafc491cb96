//! The certificate that the mode writes.
ghost use Rattle.std.specs.Prelude.{◌≡◌, ◌∷◌, [], length};
ghost use Rattle.gic_cert.specs.CertWorkspaceFor.{IsCertWorkspaceFor};
ghost use Rattle.gic_certify.specs.Made.{IsMadeFor};
ghost use Rattle.gic_certify.specs.RightCertify.{ShowsPassing, IsRightCertify};
ghost use Rattle.gic_model.specs.Voltages.{number_at};
ghost use Rattle.gic_net.specs.Net.{standing};
ghost use Rattle.gic_criteria.specs.Ranges.{IsWithinField};
ghost use Rattle.gic_stand.specs.Needs.{Solved};
ghost use Rattle.gic_stand.specs.Serves.{Serves, shown};
ghost use Rattle.gic_stand.specs.Standing.{steps_of};
ghost use Rattle.gic_uniform.specs.Ready.{IsWorkspaceForCase};
ghost use Rattle.gic_winding.specs.ElementList.{elements_of};

use crate::workspace::Workspace;
use gic_base::Sink;
use gic_case::Case;
use gic_cert::{Cert, CertWorkspace, write_cert};
use gic_criteria::UniformField;
use gic_enclose::laws::potential_bound_law;
use gic_inputs::Inputs;
use gic_model::Volts;
use gic_net::Net;
use gic_stand::{ReportFault, ended};
use gic_text::LineBuilder;
use gic_uniform::{SolveWorkspace, expect_solvable, settle_guesses};

/// Writes the certificate of a network of the case in these voltages, where it can be solved. Takes no memory.
fn certify_net<S: Sink>(
    case: &Case,
    net: &Net,
    volts: &Volts,
    field: &UniformField,
    workspace: &mut SolveWorkspace,
    places: CertWorkspace,
    line: &mut LineBuilder,
    out: &mut S,
) -> Result<(), ReportFault>
    requires net { net.now.network ≡ elements_of case.now }
    requires volts { length volts.now ≡ length net.now.network.list }
    requires ranges { IsWithinField field.now }
    requires workspace { IsWorkspaceForCase case.now workspace.old }
    requires places { IsCertWorkspaceFor net.now.network.nodes places }
    ensures { Serves Solved case.now (standing net.now ∷ [])
        (ShowsPassing case.now (standing net.now) (number_at volts.now) field.now.north field.now.east)
        (shown S.written S.faults out.old) (shown S.written S.faults out.new) result }
{
    potential_bound_law();
    net.within_limits();
    volts.within_limit();
    expect_solvable(case, net, workspace)?;
    settle_guesses(case, net, volts, workspace);
    let certificate = Cert::from_solver(
        places,
        net,
        volts,
        field.north,
        field.east,
        &workspace.solver,
        &workspace.vector,
    );
    certificate.within_ranges();
    let writing = write_cert(case, &certificate, line, out);
    ended(writing)
}

/// Writes the certificate of the potentials in the field that is asked for, with all rows of the switchings in force, where
/// the network of the case can be solved. Takes no memory.
pub fn certify<S: Sink>(
    inputs: &Inputs<UniformField>,
    workspace: Workspace,
    out: &mut S,
) -> Result<(), ReportFault>
    requires ranges { IsWithinField inputs.now.question }
    requires workspace { IsMadeFor inputs.now workspace }
    ensures { Serves Solved inputs.now.case (steps_of inputs.now) (IsRightCertify inputs.now)
        (shown S.written S.faults out.old) (shown S.written S.faults out.new) result }
{
    let Workspace {
        mut line,
        net,
        volts,
        mut solving,
        certificate,
    } = workspace;
    certify_net(
        &inputs.case,
        &net,
        &volts,
        &inputs.question,
        &mut solving,
        certificate,
        &mut line,
        out,
    )
}
