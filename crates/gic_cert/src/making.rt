//! The certificate of a solver's guesses.
ghost use Rattle.std.specs.Prelude.{◌≡◌, ℕ, ◌*◌, ◌<◌, ◌≤◌, length, slice_index, pos, if◌then◌else◌};
ghost use Rattle.gic_base.specs.declared.limits.TheConstants.{MOST_WALK};
ghost use Rattle.gic_cert.specs.declared.limits.TheConstants.{MOST_CHECKED_STEP};
ghost use Rattle.gic_model.specs.Standing.{is_live};
ghost use Rattle.gic_model.specs.Voltages.{number_at};
ghost use Rattle.gic_net.specs.Net.{standing};

use crate::cert::Cert;
use crate::cert_workspace::CertWorkspace;
use crate::checking::needed_radius;
use crate::laws::settled_step_law;
use crate::rows::Field;
use crate::step::checked_step;
use gic_base::NodeId;
use gic_bound::BoundVector;
use gic_model::Volts;
use gic_net::Net;
use gic_sweep::Solver;

/// The guess at a node, 0 where it is dead.
fn live_guess(net: &Net, solver: &Solver, node: NodeId) -> i128
    requires nodes { length solver.now ≡ net.now.network.nodes }
    requires node { node.0 < net.now.network.nodes }
    ensures { result ≡ (if is_live (standing net.now) node.0 then number_at solver.now node.0 else pos 0) }
{
    if net.live(node) {
        solver.guess(node)
    } else {
        0
    }
}

/// The guesses, 0 at dead nodes, in the place of others.
fn live_guesses(net: &Net, solver: &Solver, others: Vec<i128>) -> Vec<i128>
    requires nodes { length solver.now ≡ net.now.network.nodes }
    requires places { length others.items ≡ net.now.network.nodes }
    ensures count { length result.items ≡ net.now.network.nodes }
    ensures each { (k : ℕ) → k < net.now.network.nodes → number_at result.items k ≡ (if is_live (standing net.now) k then number_at solver.now k else pos 0) }
{
    let mut list = others;
    for node in 0..net.nodes() {
        list[node as usize] = live_guess(net, solver, NodeId(node));
    }
    list
}

/// The radii that a step asks for, by the nodes' entries, in the place of others.
fn asked_radii(nodes: u16, vector: &BoundVector, step: u128, others: Vec<u128>) -> Vec<u128>
    requires nodes { length vector.now ≡ nodes }
    requires places { length others.items ≡ nodes }
    requires entries { (k : ℕ) → slice_index vector.now k ≤ MOST_WALK }
    requires step { step ≤ MOST_CHECKED_STEP }
    ensures count { length result.items ≡ nodes }
    ensures each { (k : ℕ) → k < nodes → slice_index result.items k ≡ slice_index vector.now k * step }
{
    let mut list = others;
    for node in 0..nodes {
        list[node as usize] = needed_radius(vector.entry(NodeId(node)), step);
    }
    list
}

impl Cert {
    ghost use Rattle.std.specs.Prelude.{◌≡◌, ℕ, ◌≤◌, unsigned_abs};
    ghost use Rattle.gic_base.specs.declared.limits.TheConstants.{MOST_FIELD};
    ghost use Rattle.gic_cert.specs.declared.limits.TheConstants.{MOST_MADE_RADIUS};
    ghost use Rattle.gic_model.specs.Voltages.{number_at};
    ghost use Rattle.gic_net.specs.Net.{standing};
    ghost use Rattle.gic_cert.specs.Certifiable.{IsCertifiable};
    ghost use Rattle.gic_cert.specs.CertWorkspaceFor.{IsCertWorkspaceFor};
    ghost use Rattle.gic_cert.specs.Written.{radius_of};
    ghost use Rattle.gic_cert.specs.Made.{IsMadeOf};
    ghost use Rattle.gic_cert.specs.Passing.{IsPassing};

    /// The certificate of settled guesses and of a bound vector, whose radii are what the checked step asks for, made in
    /// this workspace. It passes for this net and these voltages, and no radius is above [`MOST_MADE_RADIUS`]. North and east, in mV/km,
    /// are those of the field that makes the voltages. Takes no memory.
    ///
    /// [`MOST_MADE_RADIUS`]: crate::limits::MOST_MADE_RADIUS
    pub fn from_solver(
        workspace: CertWorkspace,
        net: &Net,
        volts: &Volts,
        north: i32,
        east: i32,
        solver: &Solver,
        bound: &BoundVector,
    ) -> Cert
        requires workspace { IsCertWorkspaceFor net.now.network.nodes workspace }
        requires certifiable { IsCertifiable net.now volts.now solver.now bound.now }
        requires north { unsigned_abs north ≤ MOST_FIELD }
        requires east { unsigned_abs east ≤ MOST_FIELD }
        ensures field { (result.north ≡ north) × (result.east ≡ east) }
        ensures passes { IsPassing net.now.network.nodes (standing net.now) (number_at volts.now) result }
        ensures made { IsMadeOf net.now volts.now solver.now bound.now result }
        ensures small { (k : ℕ) → radius_of result k ≤ MOST_MADE_RADIUS }
    {
        settled_step_law();
        let nodes = net.nodes();
        let CertWorkspace {
            mut entries,
            guesses,
            radii,
        } = workspace;
        entries.copy_from(bound);
        let guesses = live_guesses(net, solver, guesses);
        let step = checked_step(net, volts, guesses.as_slice());
        let radii = asked_radii(nodes, bound, step, radii);
        let field = Field { north, east };
        Cert::from_columns(&field, entries, guesses, radii)
    }
}
