//! Whether a certificate is accepted, and why not.
ghost use Rattle.std.specs.Prelude.{◌≡◌, length, Ok, IfOk, IfErr, OnOk};
ghost use Rattle.gic_cert.specs.Passing.{HasNodes};
ghost use Rattle.gic_cert.specs.Reading.{certificate_nodes, cert_of};
ghost use Rattle.gic_model.specs.Voltages.{number_at};
ghost use Rattle.gic_net.specs.Net.{standing};
ghost use Rattle.gic_recheck.specs.Accepted.{PassesOwn};
ghost use Rattle.gic_recheck.specs.Told.{told_as, IsNodeWithin, IsToldBreak, IsFaultOf};
ghost use Rattle.gic_case.specs.Lists.{node_names};
ghost use Rattle.gic_uniform.specs.Uniform.{uniform_volts};
ghost use Rattle.gic_winding.specs.ElementList.{elements_of};

use crate::fault::{CertificateRefusal, WorkspaceFault};
use gic_base::{OutOfMemory, ReadFault};
use gic_case::{Case, node_name};
use gic_cert::{Cert, CertRefusal, check, read_cert};
use gic_model::{Elements, Volts};
use gic_net::Net;
use gic_uniform::uniform_volts;
use std::alloc::Global;

/// A refusal with the name of its node.
fn told(case: &Case, refusal: CertRefusal) -> CertificateRefusal
    requires { IsNodeWithin (length (node_names case.now)) refusal }
    ensures { result ≡ told_as case.now refusal }
{
    match refusal {
        CertRefusal::Shape { row } => CertificateRefusal::Shape { row },
        CertRefusal::Number { row } => CertificateRefusal::Number { row },
        CertRefusal::Node { row } => CertificateRefusal::Node { row },
        CertRefusal::Row { node } => {
            let node = node_name(case, node);
            CertificateRefusal::Row { node }
        }
        CertRefusal::Residual { node } => {
            let node = node_name(case, node);
            CertificateRefusal::Residual { node }
        }
        CertRefusal::Radius { node } => {
            let node = node_name(case, node);
            CertificateRefusal::Radius { node }
        }
    }
}

/// Whether a certificate of the case passes for the voltages of its own field, and the first rule that it breaks. Takes no
/// memory.
pub(crate) fn expect_passing(
    case: &Case,
    net: &Net,
    volts: &Volts,
    cert: &Cert,
) -> Result<(), CertificateRefusal>
    requires net { net.now.network ≡ elements_of case.now }
    requires count { length volts.now ≡ length net.now.network.list }
    requires volts { number_at volts.now ≡ uniform_volts case.now cert.now.north cert.now.east }
    requires nodes { HasNodes net.now.network.nodes (standing net.now) cert.now }
    ensures passes { OnOk result (PassesOwn case.now (standing net.now) cert.now) }
    ensures refused { IfErr result (IsToldBreak case.now (standing net.now) cert.now) }
{
    net.within_limits();
    match check(net, volts, cert) {
        Ok(()) => Ok(()),
        Err(broken) => Err(told(case, broken)),
    }
}

/// Reads a certificate over the network of a case.
pub(crate) fn read(
    alloc: Global,
    case: &Case,
    net: &Net,
    bytes: &[u8],
) -> Result<Cert, WorkspaceFault>
    requires { net.now.network ≡ elements_of case.now }
    ensures read { IfOk result (λ cert. cert_of (certificate_nodes case.now (standing net.now)) bytes.now ≡ Ok cert) }
    ensures nodes { IfOk result (HasNodes net.now.network.nodes (standing net.now)) }
    ensures refused { IfErr result (IsFaultOf case.now (standing net.now) bytes.now) }
{
    match read_cert(alloc, bytes, case, net) {
        Ok(cert) => Ok(cert),
        Err(ReadFault::Refused(refusal)) => Err(WorkspaceFault::Refused(told(case, refusal))),
        Err(ReadFault::Memory) => Err(WorkspaceFault::Memory),
    }
}

/// The voltages of the elements of a case in a certificate's own field, in nanovolts.
pub(crate) fn own_volts(
    alloc: Global,
    case: &Case,
    elements: &Elements,
    cert: &Cert,
) -> Result<Volts, OutOfMemory>
    requires { elements.now ≡ elements_of case.now }
    ensures own { IfOk result (λ volts. number_at volts ≡ uniform_volts case.now cert.now.north cert.now.east) }
    ensures count { IfOk result (λ volts. length volts ≡ length (elements_of case.now).list) }
{
    uniform_volts(alloc, case, elements, cert.north(), cert.east())
}
