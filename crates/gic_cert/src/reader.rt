//! Reads a certificate over the nodes of a case.
ghost use Rattle.std.specs.Prelude.{◌≡◌, ◌≤◌, length, map, is_some, IfOk};
ghost use Rattle.gic_base.specs.Refusals.{AnswersRead};
ghost use Rattle.gic_net.specs.Net.{standing};
ghost use Rattle.gic_winding.specs.ElementList.{elements_of};
ghost use Rattle.gic_cert.specs.declared.limits.TheConstants.{MOST_WRITTEN_NODES};
ghost use Rattle.gic_cert.specs.Passing.{HasNodes};
ghost use Rattle.gic_cert.specs.Reading.{certificate_nodes, cert_of};
ghost use Rattle.gic_cert.specs.Rows.{named_nodes};

use crate::cert::Cert;
use crate::from_rows::of_rows;
use crate::reading::read_rows;
use crate::refusal::CertRefusal;
use crate::rows::NodeName;
use gic_base::{NodeId, ReadFault};
use gic_case::{Case, NodeNames};
use gic_net::Net;
use std::alloc::{AllocError, Global};

/// Reads a certificate over these nodes. The first broken rule answers, line by line.
#[tactic(auto, using(crate::proofs::ReadLaws::settling), unfolding(crate::specs::Reading::cert_of))]
fn read_named(
    alloc: Global,
    bytes: &[u8],
    nodes: &[NodeName],
) -> Result<Cert, ReadFault<CertRefusal>>
    requires few { length nodes.now ≤ MOST_WRITTEN_NODES }
    ensures answer { AnswersRead (λ cert. cert) result (cert_of (named_nodes nodes.now) bytes.now) }
    ensures live { IfOk result (λ cert. map is_some cert.nodes ≡ map (λ node. node.live) nodes.now) }
{
    let read = read_rows(alloc, bytes, nodes)?;
    let Ok(cert) = of_rows(alloc, &read) else {
        return Err(ReadFault::Memory);
    };
    Ok(cert)
}

/// The nodes of a case by their names, each with whether it is live.
fn nodes_of(alloc: Global, case: &Case, net: &Net) -> Result<Vec<NodeName>, AllocError>
    requires { net.now.network ≡ elements_of case.now }
    ensures nodes { IfOk result (λ nodes. named_nodes nodes.items ≡ certificate_nodes case.now (standing net.now)) }
    ensures count { IfOk result (λ nodes. length nodes.items ≡ net.now.network.nodes) }
{
    net.within_limits();
    let mut nodes = Vec::new(alloc);
    let mut node: u16 = 0;
    for name in NodeNames::of(case) {
        let live = net.live(NodeId(node));
        nodes.push(NodeName { name, live })?;
        node += 1;
    }
    Ok(nodes)
}

/// Reads a certificate over the nodes of a network of the case. The lines are read one by one, and at each its rules are
/// tried in order: its form, its numbers, its node. The first broken rule answers. What is read has the net's nodes, with
/// numbers at exactly the live ones.
pub fn read_cert(
    alloc: Global,
    bytes: &[u8],
    case: &Case,
    net: &Net,
) -> Result<Cert, ReadFault<CertRefusal>>
    requires { net.now.network ≡ elements_of case.now }
    ensures answer { AnswersRead (λ cert. cert) result (cert_of (certificate_nodes case.now (standing net.now)) bytes.now) }
    ensures nodes { IfOk result (HasNodes net.now.network.nodes (standing net.now)) }
{
    net.within_limits();
    let nodes = nodes_of(alloc, case, net)?;
    read_named(alloc, bytes, nodes.as_slice())
}
