//! How the outage of an item ends.
use gic_base::Name;
use gic_report::Counts;

/// How the outage of an item ends.
#[derive(Clone, Copy, Debug)]
pub(crate) enum OutageOutcome {
    /// No element of the item stands, so nothing is taken out.
    Idle,
    /// Without the item this live node is the first that no chain of standing elements joins to earth.
    Unearthed(Name),
    /// Without it each live node is earthed, and this node is the first with the entry 4097 in the least capped vector.
    Unresolved(Name),
    /// Without it the network is solved, and this many transformers have each verdict.
    Solved(Counts),
}
