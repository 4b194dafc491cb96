//! The intervals of potentials that a certificate shows.
ghost use Rattle.std.specs.Prelude.{◌≡◌, ◌<◌, length, map, IfOk};
ghost use Rattle.gic_recheck.specs.RightRecheck.{potential_of, potentials_of};
ghost use Rattle.gic_view.specs.Kept.{optional_ends};

use gic_base::{NodeId, OutOfMemory};
use gic_cert::Cert;
use gic_fixed::Interval;
use gic_sweep::GRAINS;
use std::alloc::Global;

/// The grains of a millivolt.
const MILLIVOLT: i128 = 1_000_000 * GRAINS;

/// The interval of a live node in millivolts, outward.
fn potential(cert: &Cert, node: NodeId) -> Option<Interval>
    requires { node.0 < length cert.now.nodes }
    ensures { optional_ends result ≡ potential_of cert.now node.0 }
{
    let interval = cert.interval(node)?;
    Some(interval.div_out(MILLIVOLT))
}

/// The interval of each live node in millivolts, in node order.
pub(crate) fn potentials(
    alloc: Global,
    nodes: u16,
    cert: &Cert,
) -> Result<Vec<Option<Interval>>, OutOfMemory>
    requires { length cert.now.nodes ≡ nodes }
    ensures { IfOk result (λ list. map optional_ends list.items ≡ potentials_of cert.now) }
{
    let mut list = vec![in alloc; None; nodes as usize]?;
    for node in 0..nodes {
        list[node as usize] = potential(cert, NodeId(node));
    }
    Ok(list)
}
