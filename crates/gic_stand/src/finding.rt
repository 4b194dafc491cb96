//! Some bound vector, from what the vector was or from a proposal.
ghost use Rattle.std.specs.Prelude.{◌↔◌, slice_index, IsOk, OnOk, OnErr, IfErr};
ghost use Rattle.gic_model.specs.Bound.{IsEarthedWithin, IsLeastCappedVector};
ghost use Rattle.gic_net.specs.Net.{standing};
ghost use Rattle.gic_bound.specs.Entries.{IsBoundWithin, IsFirstFull};
ghost use Rattle.gic_stand.specs.ForNodes.{IsStartForNodes};

use crate::proposing::propose;
use crate::start::Start;
use gic_base::limits::MOST_WALK;
use gic_bound::{BoundVector, Unresolved, some_bound};
use gic_net::Net;

/// The greatest entry of a vector that tells nothing of how far nodes lie from earth.
const NOTHING_KNOWN: u16 = 1;

/// Makes the vector a bound vector of the net without an entry above [`MOST_WALK`], where there is one; else the least
/// capped vector. It begins with what the vector was, as with a bound vector of nearly the same net, and where that is
/// nowhere above 1, with a proposal of its own.
pub fn find_bound(net: &Net, out: &mut BoundVector, start: &mut Start) -> Result<(), Unresolved>
    requires { IsStartForNodes net.now.network.nodes out.old start.old }
    ensures earthed { IsOk result ↔ IsEarthedWithin (standing net.now) MOST_WALK }
    ensures bound { OnOk result (IsBoundWithin (standing net.now) MOST_WALK (slice_index out.new)) }
    ensures least { OnErr result (IsLeastCappedVector (standing net.now) (slice_index out.new)) }
    ensures first { IfErr result (λ refusal. IsFirstFull (slice_index out.new) refusal.node.0) }
    ensures workspace { IsStartForNodes net.now.network.nodes out.new start.new }
{
    if out.walk() <= NOTHING_KNOWN {
        propose(net, out, start);
    }
    some_bound(net, out, &mut start.workspace)
}
