//! Theorems over the definitions, each the contract of a function that does nothing but bring the theorems that it joins.
ghost use Rattle.gic_claims.specs.Claims.{AcceptedNetworksAreSolved, AcceptedSolutionsAgree, BoundNetworksAreEarthed};
ghost use Rattle.gic_claims.specs.Claims.{BoundNetworksAreSolved};

use gic_case_reader::laws::accepted_law;
use gic_exists::laws::{agreement_law, existence_law};
use gic_winding::laws::limits_law;

/// For every case that is accepted, whichever switchings are in force and whatever the fields of its zones: where every
/// live node is earthed, a solution exists, and any two agree.
pub fn solutions_exist_law()
    ensures exist { AcceptedNetworksAreSolved }
    ensures agree { AcceptedSolutionsAgree }
{
    accepted_law();
    limits_law();
    existence_law();
    agreement_law();
}

/// Every live node of a network is earthed where its standing elements have a bound vector, whoever found it.
pub fn bound_networks_are_earthed_law()
    ensures { BoundNetworksAreEarthed }
{}

/// So a solution exists there for any voltages: a certificate that passes speaks of a network that has one.
pub fn bound_networks_are_solved_law()
    ensures { BoundNetworksAreSolved }
{
    bound_networks_are_earthed_law();
    existence_law();
}
