//! What a certificate is made in.
ghost use Rattle.std.specs.Prelude.{IfOk};
ghost use Rattle.gic_cert.specs.CertWorkspaceFor.{IsCertWorkspaceFor};

use gic_base::OutOfMemory;
use gic_bound::BoundVector;
use std::alloc::Global;

/// A place for the entry, the guess and the radius of each node.
#[derive(Drop)]
pub struct CertWorkspace {
    pub(crate) entries: BoundVector,
    pub(crate) guesses: Vec<i128>,
    pub(crate) radii: Vec<u128>,
}

/// The workspace for a certificate of this many nodes.
#[tactic(auto, using(crate::proofs::Places::places_for))]
pub fn make_cert_workspace(alloc: Global, nodes: u16) -> Result<CertWorkspace, OutOfMemory>
    ensures { IfOk result (IsCertWorkspaceFor nodes) }
{
    let entries = BoundVector::new(alloc, nodes)?;
    let guesses = vec![in alloc; 0; nodes as usize]?;
    let radii = vec![in alloc; 0; nodes as usize]?;
    Ok(CertWorkspace {
        entries,
        guesses,
        radii,
    })
}
