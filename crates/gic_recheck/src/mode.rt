//! The report of the mode.
ghost use Rattle.std.specs.Prelude.{◌≡◌, ℕ, List, length, map, Ok};
ghost use Rattle.gic_cert.specs.Passing.{HasNodes};
ghost use Rattle.gic_cert.specs.Reading.{certificate_nodes, cert_of};
ghost use Rattle.gic_model.specs.Voltages.{number_at};
ghost use Rattle.gic_net.specs.Net.{standing};
ghost use Rattle.gic_recheck.specs.Made.{IsMadeFor, IsReadFrom};
ghost use Rattle.gic_recheck.specs.RightRecheck.{potentials_of, ServesCertificate, ServesRecheck};
ghost use Rattle.gic_recheck.specs.Told.{shown_so};
ghost use Rattle.gic_stand.specs.Serves.{shown};
ghost use Rattle.gic_uniform.specs.Uniform.{uniform_volts};
ghost use Rattle.gic_view.specs.Kept.{optional_ends};
ghost use Rattle.gic_winding.specs.ElementList.{elements_of};

use crate::accepting::expect_passing;
use crate::fault::RecheckFault;
use crate::text::write_recheck;
use crate::workspace::Workspace;
use gic_base::{Sink, WriteFailed};
use gic_case::Case;
use gic_cert::Cert;
use gic_fixed::Interval;
use gic_inputs::Inputs;
use gic_model::Volts;
use gic_net::Net;
use gic_stand::ReportFault;
use gic_text::LineBuilder;

/// How the writing of a report ended.
fn shown_so(writing: Result<(), WriteFailed>) -> Result<(), RecheckFault>
    ensures { result ≡ shown_so writing }
{
    match writing {
        Ok(()) => Ok(()),
        Err(_) => Err(RecheckFault::Report(ReportFault::CannotWrite)),
    }
}

/// Writes the report of a certificate over this network, where it passes for the voltages of its own field. Takes no memory.
fn show<S: Sink>(
    case: &Case,
    net: &Net,
    volts: &Volts,
    cert: &Cert,
    intervals: &[Option<Interval>],
    line: &mut LineBuilder,
    out: &mut S,
) -> Result<(), RecheckFault>
    requires net { net.now.network ≡ elements_of case.now }
    requires count { length volts.now ≡ length net.now.network.list }
    requires volts { number_at volts.now ≡ uniform_volts case.now cert.now.north cert.now.east }
    requires nodes { HasNodes net.now.network.nodes (standing net.now) cert.now }
    requires intervals { map optional_ends intervals.now ≡ potentials_of cert.now }
    ensures { (bytes : List ℕ) → cert_of (certificate_nodes case.now (standing net.now)) bytes ≡ Ok cert.now →
        ServesCertificate case.now (standing net.now) bytes
        (shown S.written S.faults out.old) (shown S.written S.faults out.new) result }
{
    match expect_passing(case, net, volts, cert) {
        Err(refusal) => Err(RecheckFault::Refused(refusal)),
        Ok(()) => {
            let writing = write_recheck(case, cert.north(), cert.east(), intervals, line, out);
            shown_so(writing)
        }
    }
}

/// Writes the potentials that the certificate in the workspace shows, where it is accepted over the network of the
/// case, with all rows of the switchings in force; it may come from anybody. Takes no memory.
pub fn recheck<S: Sink>(
    inputs: &Inputs<()>,
    workspace: &mut Workspace,
    out: &mut S,
) -> Result<(), RecheckFault>
    requires { IsMadeFor inputs.now workspace.old }
    ensures { (bytes : List ℕ) → IsReadFrom inputs.now bytes workspace.old → ServesRecheck inputs.now bytes
        (shown S.written S.faults out.old) (shown S.written S.faults out.new) result }
{
    show(
        &inputs.case,
        &workspace.net,
        &workspace.volts,
        &workspace.cert,
        &workspace.intervals,
        &mut workspace.line,
        out,
    )
}
